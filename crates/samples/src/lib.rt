// What actions and counters sample from their distributions.
#![tactic(auto)]

pub mod counter; // counter.rs
pub mod action; // action.rs
