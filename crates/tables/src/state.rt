// state.rs, `State::validate`: refusals 8 to 15 of a state.
#![tactic(auto)]

ghost use Rattle.std.specs.Prelude.{◌≡◌, ◌+◌, ◌≤◌, get_or};
ghost use Rattle.machine.specs.Constants.{state_words};
ghost use Rattle.refusal.specs.Refusal.{refusal_of};
ghost use Rattle.tables.specs.State as Spec;

use machine::constants::{
    ABSENT, ACTION, BLOCK_OUTGOING, CANCEL, COUNTER_A, COUNTER_B, COUNTER_DIST, DURATION, EVENTS,
    FLAGS, LIMIT, OUTSIDE, SEND_PADDING, SET, STATE_WORDS, TIMEOUT, TIMER, UNIFORM, UPDATE_TIMER,
};
use refusal::Refusal;
use rows::Transitions;

// A state's words.
type Row = [u64; STATE_WORDS];

// ---- refusals 8 to 13: rows of transitions

// Event by event, in the order of `Event`: for each the first row of its transitions, and how many.
fn check_events(row: &Row, transitions: &Transitions) -> Result<(), Refusal>
    ensures { refusal_of result ≡ Spec.events_refusal transitions.now.words.now transitions.now.states row.now }
{
    let (pairs, _) = row[EVENTS..].as_chunks::<2>();
    for [first, count] in pairs {
        transitions.check_pair(*first, *count)?;
    }
    Ok(())
}

// ---- refusal 14: codes, which stay words: C lends them so

// The kind of a distribution that the action needs.
#[tactic(auto, unfolding(crate::specs::State::needed_unknown))]
fn needed_unknown(kind: u64) -> bool
    ensures { result ≡ Spec.needed_unknown kind }
{
    kind == ABSENT || kind > OUTSIDE
}

// The flags and the limit of an action other than Cancel.
#[tactic(auto, unfolding(crate::specs::State::common_unknown))]
fn common_unknown(row: &Row) -> bool
    ensures { result ≡ Spec.common_unknown row.now }
{
    row[FLAGS] > 3 || row[LIMIT] > OUTSIDE
}

// Cancel uses its timer alone.
#[tactic(auto, unfolding(crate::specs::State::action_unknown))]
fn action_unknown(row: &Row) -> bool
    ensures { result ≡ Spec.action_unknown row.now }
{
    match row[ACTION] {
        0 => false,
        CANCEL => row[TIMER] > 2,
        SEND_PADDING => common_unknown(row) || needed_unknown(row[TIMEOUT]),
        BLOCK_OUTGOING => common_unknown(row)
            || needed_unknown(row[TIMEOUT])
            || needed_unknown(row[DURATION]),
        UPDATE_TIMER => common_unknown(row) || needed_unknown(row[DURATION]),
        _ => true,
    }
}

// The counter that begins at word k. Its distribution's kind counts even under copy.
#[tactic(auto, unfolding(crate::specs::State::counter_unknown))]
fn counter_unknown(row: &Row, k: usize) -> bool
    requires { k + 7 ≤ state_words }
    ensures { result ≡ Spec.counter_unknown row.now k }
{
    row[k] != 0 && (row[k] > SET || row[k + 1] > 1 || row[k + COUNTER_DIST] > OUTSIDE)
}

#[tactic(auto, unfolding(crate::specs::State::codes_unknown))]
fn codes_unknown(row: &Row) -> bool
    ensures { result ≡ Spec.codes_unknown row.now }
{
    action_unknown(row) || counter_unknown(row, COUNTER_A) || counter_unknown(row, COUNTER_B)
}

// ---- refusal 15: distributions

// Dist::validate of the five words at k; only a Uniform's bounds are read.
#[tactic(auto, using(crate::proofs::Dists::invalid_is))]
fn invalid(row: &Row, k: usize) -> bool
    requires { k + 5 ≤ state_words }
    ensures { result ≡ Spec.invalid row.now k }
{
    row[k] == UNIFORM
        && !dists::valid_uniform(
            numbers::f64_of_word(row[k + 1]),
            numbers::f64_of_word(row[k + 2]),
        )
}

#[tactic(auto, unfolding(crate::specs::State::action_invalid))]
fn action_invalid(row: &Row) -> bool
    ensures { result ≡ Spec.action_invalid row.now }
{
    match row[ACTION] {
        SEND_PADDING => invalid(row, TIMEOUT) || invalid(row, LIMIT),
        BLOCK_OUTGOING => invalid(row, TIMEOUT) || invalid(row, DURATION) || invalid(row, LIMIT),
        UPDATE_TIMER => invalid(row, DURATION) || invalid(row, LIMIT),
        _ => false,
    }
}

#[tactic(auto, unfolding(crate::specs::State::counter_invalid))]
fn counter_invalid(row: &Row, k: usize) -> bool
    requires { k + 7 ≤ state_words }
    ensures { result ≡ Spec.counter_invalid row.now k }
{
    row[k] != 0 && invalid(row, k + COUNTER_DIST)
}

#[tactic(auto, unfolding(crate::specs::State::dists_invalid))]
fn dists_invalid(row: &Row) -> bool
    ensures { result ≡ Spec.dists_invalid row.now }
{
    action_invalid(row) || counter_invalid(row, COUNTER_A) || counter_invalid(row, COUNTER_B)
}

// ---- a state

// Event by event; then the codes of the action and both counters; then their distributions.
pub fn check_state(row: &Row, transitions: &Transitions) -> Result<(), Refusal>
    ensures { refusal_of result ≡ Spec.state_refusal transitions.now.words.now transitions.now.states row.now }
{
    check_events(row, transitions)?;
    if codes_unknown(row) {
        Err(Refusal::UnknownCode)
    } else if dists_invalid(row) {
        Err(Refusal::InvalidDistribution)
    } else {
        Ok(())
    }
}
