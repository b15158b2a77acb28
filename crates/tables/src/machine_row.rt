// machine.rs, `Machine::validate`: refusals 4 to 7, then the machine's states.
#![tactic(auto)]

ghost use Rattle.std.specs.Prelude.{◌≡◌, ◌*◌, ◌≤◌, length};
ghost use Rattle.std.specs.List.{concat};
ghost use Rattle.refusal.specs.Refusal.{refusal_of};
ghost use Rattle.tables.specs.Machine.{beyond_fraction, machine_refusal, states_refusal, each_state};

use machine::constants::{
    FIRST_STATE, MACHINE_WORDS, MAX_BLOCKING_FRAC, MAX_PADDING_FRAC, NUM_STATES, STATE_MAX,
    STATE_WORDS,
};
use machine::tables::Tables;
use refusal::Refusal;
use rows::Transitions;

// Below 0 or above 1: a NaN passes.
#[tactic(auto, unfolding(crate::specs::Machine::beyond_fraction))]
fn beyond_fraction(x: f64) -> bool
    ensures { result ≡ beyond_fraction x }
{
    x < 0.0 || x > 1.0
}

// Each of the machine's states, whose rows are given.
fn check_each_state(rows: &[[u64; STATE_WORDS]], transitions: &Transitions) -> Result<(), Refusal>
    requires { length rows.now ≡ transitions.now.states }
    ensures { refusal_of result ≡ each_state transitions.now.words.now transitions.now.states (concat rows.now) }
{
    for row in rows {
        super::state::check_state(row, transitions)?;
    }
    Ok(())
}

// The number of the states and their place. A first row near 2^64 is caught before any sum.
fn check_states(t: &Tables, first: u64, n: u64) -> Result<(), Refusal>
    ensures { refusal_of result ≡ states_refusal t.now.states.now t.now.transitions.now first n }
{
    if n == 0 || n > STATE_MAX {
        return Err(Refusal::StateCount);
    }
    let transitions = Transitions {
        words: t.transitions,
        states: n,
    };
    match rows::rows_within(t.states, first, n) {
        Some(rows) => check_each_state(rows, &transitions),
        None => Err(Refusal::StatesBeyondTable),
    }
}

// One machine.
#[tactic(auto, unfolding(crate::specs::Machine::machine_refusal))]
pub fn check_machine(row: &[u64; MACHINE_WORDS], t: &Tables) -> Result<(), Refusal>
    ensures { refusal_of result ≡ machine_refusal t.now.states.now t.now.transitions.now row.now }
{
    if beyond_fraction(numbers::f64_of_word(row[MAX_PADDING_FRAC])) {
        Err(Refusal::MachinePadding)
    } else if beyond_fraction(numbers::f64_of_word(row[MAX_BLOCKING_FRAC])) {
        Err(Refusal::MachineBlocking)
    } else {
        check_states(t, row[FIRST_STATE], row[NUM_STATES])
    }
}
