// Refusal 24: a distribution of kind 2, drawn outside, in a field that is used.
#![tactic(auto)]

ghost use Rattle.std.specs.Prelude.{◌≡◌, false, ◌+◌, ◌/◌, ◌≤◌, length};
ghost use Rattle.std.specs.List.{concat};
ghost use Rattle.machine.specs.Constants.{state_words};
ghost use Rattle.outside.specs.Outside as Spec;

use machine::constants::{
    ACTION, BLOCK_OUTGOING, COUNTER_A, COUNTER_B, COUNTER_DIST, DURATION, FIRST_STATE, LIMIT,
    MACHINE_WORDS, NUM_STATES, OUTSIDE, SEND_PADDING, STATE_WORDS, TIMEOUT, UPDATE_TIMER,
};
use machine::state::state_rows;
use machine::tables::Tables;

// A state's words.
type Row = [u64; STATE_WORDS];

// ---- a state

// The counter that begins at word k: its operation is 0 where there is none. Its distribution's kind
// counts even under copy.
fn counter_outside(row: &Row, k: usize) -> bool
    requires { k + 7 ≤ state_words }
    ensures { result ≡ Spec.counter_outside row.now k }
{
    (row[k] != 0) & (row[k + COUNTER_DIST] == OUTSIDE)
}

// Any of the five distributions, used or not: where none is, no used one is.
#[tactic(auto, using(crate::specs::Outside::Laws::none_outside))]
fn any_outside(row: &Row) -> bool
    ensures { result ≡ false → Spec.state_outside row.now ≡ false }
{
    (row[TIMEOUT] == OUTSIDE)
        | (row[DURATION] == OUTSIDE)
        | (row[LIMIT] == OUTSIDE)
        | (row[COUNTER_A + COUNTER_DIST] == OUTSIDE)
        | (row[COUNTER_B + COUNTER_DIST] == OUTSIDE)
}

// What the action uses, and both counters. Every field is read, and a use is joined with its kind
// without a branch: nothing is guessed of words that change from state to state.
#[tactic(auto, unfolding(crate::specs::Outside::state_outside))]
fn used_outside(row: &Row) -> bool
    ensures { result ≡ Spec.state_outside row.now }
{
    let action = row[ACTION];
    let pads = action == SEND_PADDING;
    let blocks = action == BLOCK_OUTGOING;
    let times = action == UPDATE_TIMER;
    let timeout = (pads | blocks) & (row[TIMEOUT] == OUTSIDE);
    let duration = (blocks | times) & (row[DURATION] == OUTSIDE);
    let limit = (pads | blocks | times) & (row[LIMIT] == OUTSIDE);
    timeout | duration | limit | counter_outside(row, COUNTER_A) | counter_outside(row, COUNTER_B)
}

// Tables that draw from words seldom have one, used or not.
fn state_outside(row: &Row) -> bool
    ensures { result ≡ Spec.state_outside row.now }
{
    any_outside(row) && used_outside(row)
}

// ---- machines

// The states of a machine, whose words are given.
fn machine_outside(machine: &[u64; MACHINE_WORDS], states: &[u64]) -> bool
    ensures { result ≡ Spec.machines_outside machine.now states.now 1 }
{
    let own = state_rows(states, machine[FIRST_STATE], machine[NUM_STATES]);
    let (rows, _) = own.as_chunks::<STATE_WORDS>();
    rows.iter().any(|row| state_outside(row))
}

// Refusal 24: whether a state of the machines uses a distribution that is drawn outside. Each machine
// has its own part of the state table, no further than the table goes.
pub fn draws_outside(t: &Tables) -> bool
    ensures { result ≡ Spec.draws_outside t.now.machines.now t.now.states.now }
{
    let (machines, _) = t.machines.as_chunks::<MACHINE_WORDS>();
    machines.iter().any(|row| machine_outside(row, t.states))
}
