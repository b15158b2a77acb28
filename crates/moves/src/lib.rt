// What a transition of framework.rs is made of, for one machine: the choice of a next state, and what
// happens on the way to it, up to a CounterZero transition. One machine goes in and comes back.
#![tactic(auto)]

pub mod choice; // the choice of a next state
pub mod action; // schedule_action
pub mod step; // a state that is entered, and what follows its counters
pub mod settle; // the short way
