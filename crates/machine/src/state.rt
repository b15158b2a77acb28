// state.rs: rows of the state table, and the choice of a next state.
ghost use Rattle.std.specs.Prelude.{◌≡◌, ◌*◌, ◌≤◌, ◌<◌, min, get_or};
ghost use Rattle.machine.specs.Constants.{event_num, state_words};
ghost use Rattle.machine.specs.State.{rows_of, state_row, first_of, count_of};
ghost use Rattle.machine.specs.State.{sample_state};

use super::constants::{EVENTS, STATE_WORDS, TRANSITION_WORDS};

// ---- rows

// Word k of a row; 0 past its end.
pub fn word(row: &[u64], k: usize) -> u64
    ensures { result ≡ get_or row.now k 0 }
{
    if k < row.len() {
        return row[k];
    }
    0
}

// The words that n state rows take, at most `len`. The quotient keeps the product from wrapping.
fn state_words(n: u64, len: usize) -> usize
    ensures is { result ≡ min (n * state_words) len }
    ensures within { result ≤ len }
{
    let rows = n as usize;
    if rows <= len / STATE_WORDS {
        rows * STATE_WORDS
    } else {
        len
    }
}

// A machine's own part of the state table, no further than the table goes.
pub fn state_rows(states: &[u64], first: u64, count: u64) -> &[u64]
    ensures { result.now ≡ rows_of state_words states.now first count }
{
    let start = state_words(first, states.len());
    let end = start + state_words(count, states.len() - start);
    &states[start..end]
}

// The row of a state, of its machine's own part.
pub fn state_row(rows: &[u64], state: u64) -> &[u64]
    ensures { result.now ≡ state_row rows.now state }
{
    state_rows(rows, state, 1)
}

// The first transition row of an event that has some: then the word is there.
pub fn first_of(row: &[u64], event: u64) -> u64
    requires known_event { event < event_num }
    requires has_rows { (count_of row.now event ≡ 0 → ⊥) }
    ensures { result ≡ first_of row.now event }
{
    row[EVENTS + (event as usize) * 2]
}

// How many transition rows an event has; 0 where it has no row.
pub fn count_of(row: &[u64], event: u64) -> u64
    requires { event < event_num }
    ensures { result ≡ count_of row.now event }
{
    word(row, EVENTS + (event as usize) * 2 + 1)
}

// ---- State::sample_state

// The first target of the row at which the running sum exceeds the draw, a pseudo-state among them, or none. Neither the first row
// nor the count is trusted to lie within the table.
pub fn sample_state(transitions: &[u64], first: u64, count: u64, draw: f32) -> Option<u64>
    ensures { result ≡ sample_state transitions.now first count draw }
{
    let rows = transitions.len() / TRANSITION_WORDS;
    let start = first as usize;
    if rows < start {
        return None;
    }
    let n = count as usize;
    if rows - start < n {
        return None;
    }
    let mut sum: f32 = 0.0;
    for i in start..start + n {
        let at = i * TRANSITION_WORDS;
        sum = sum + numbers::f32_of_word(transitions[at + 1]);
        if draw < sum {
            return Some(transitions[at]);
        }
    }
    None
}
