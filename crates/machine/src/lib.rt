// What the lent tables hold: rows by name, and the choice of a next state.
#![tactic(auto)]

pub mod constants; // constants.rs, and the layout of the lent tables
pub mod event; // event.rs
pub mod source; // the draws of a call
pub mod state; // state.rs
pub mod tables; // the lent tables
