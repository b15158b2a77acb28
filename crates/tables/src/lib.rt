// The checks of what the sender lends at an opening and with each batch: refusals 1 to 15, each
// answer the first refusal in document 01's order.
#![tactic(auto)]

ghost use Rattle.std.specs.Prelude.{◌≡◌, length};
ghost use Rattle.std.specs.List.{concat};
ghost use Rattle.refusal.specs.Refusal.{refusal_of};
ghost use Rattle.tables.specs.Framework.{is_fraction, fractions_refusal};
ghost use Rattle.tables.specs.Machine.{machines_refusal, whole_tables, tables_refusal};

use machine::constants::{MACHINE_MAX, MACHINE_WORDS, STATE_WORDS, TRANSITION_WORDS};
use machine::tables::Tables;
use refusal::Refusal;

mod state; // state.rs: a state
mod machine_row; // machine.rs

// 0.0 to 1.0; a NaN is not.
#[tactic(auto, unfolding(crate::specs::Framework::is_fraction))]
fn is_fraction(x: f64) -> bool
    ensures { result ≡ is_fraction x }
{
    x >= 0.0 && x <= 1.0
}

// Refusals 1 and 2: the framework's own fractions.
#[tactic(auto, unfolding(crate::specs::Framework::fractions_refusal))]
pub fn check_fractions(max_padding_frac: f64, max_blocking_frac: f64) -> Result<(), Refusal>
    ensures { refusal_of result ≡ fractions_refusal max_padding_frac max_blocking_frac }
{
    if !is_fraction(max_padding_frac) {
        Err(Refusal::PaddingFraction)
    } else if !is_fraction(max_blocking_frac) {
        Err(Refusal::BlockingFraction)
    } else {
        Ok(())
    }
}

// Whether each table is whole rows, of at most 16 machines.
#[tactic(auto, unfolding(crate::specs::Machine::whole_tables))]
fn whole_tables(t: &Tables) -> bool
    ensures { result ≡ whole_tables t.now.machines.now t.now.states.now t.now.transitions.now }
{
    t.machines.len() % MACHINE_WORDS == 0
        && t.states.len() % STATE_WORDS == 0
        && t.transitions.len() % TRANSITION_WORDS == 0
        && t.machines.len() / MACHINE_WORDS <= MACHINE_MAX
}

// Machine by machine.
fn check_machines(machines: &[[u64; MACHINE_WORDS]], t: &Tables) -> Result<(), Refusal>
    ensures { refusal_of result ≡ machines_refusal (concat machines.now) t.now.states.now t.now.transitions.now (length machines.now) }
{
    for row in machines {
        machine_row::check_machine(row, t)?;
    }
    Ok(())
}

// Refusals 3 to 15: the tables' form, then machine by machine. No word is trusted.
pub fn check_tables(t: &Tables) -> Result<(), Refusal>
    ensures { refusal_of result ≡ tables_refusal t.now.machines.now t.now.states.now t.now.transitions.now }
{
    if !whole_tables(t) {
        return Err(Refusal::NotWholeRows);
    }
    let (machines, _) = t.machines.as_chunks::<MACHINE_WORDS>();
    check_machines(machines, t)
}
