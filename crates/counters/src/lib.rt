// framework.rs: the counters of update_counter.
#![tactic(auto)]

ghost use Rattle.refusal.specs.Refusal.{told};
ghost use Rattle.std.specs.Prelude.{◌≡◌, ◌&&◌, get_or, eqb, ◌+◌, ◌≤◌};
ghost use Rattle.machine.specs.Constants.{counter_a, counter_b, state_words};
ghost use Rattle.steps.specs.Transition as Spec;

use machine::constants::{COUNTER_A, COUNTER_B, DECREMENT, INCREMENT};
use machine::source::{Draw, Draws, Place};
use machine::state::word;
use refusal::Refusal;
use samples::counter::sample_value;
use steps::{Counter, Counters, Tally, Zeroed};

// Increment, Decrement, or Set.
#[tactic(auto, unfolding(steps::specs::Transition::applied))]
fn applied(operation: u64, old: u64, change: u64) -> u64
    ensures { result ≡ Spec.applied operation old change }
{
    match operation {
        INCREMENT => numbers::saturating_add(old, change),
        DECREMENT => numbers::saturating_sub(old, change),
        _ => change,
    }
}

// Whether a counter reaches zero from another value, for the first time in this call.
fn reports_zero(old: u64, value: u64, zeroed: bool) -> bool
    ensures { result ≡ Spec.reports_zero old value zeroed }
{
    old != 0 && value == 0 && !zeroed
}

// What a counter changes by: the other's value from before the update where copy is set, and else
// a sample.
fn change_of<D: Draws>(
    row: &[u64],
    k: usize,
    draws: &D,
    at: Place,
    other: u64,
) -> Result<Draw<u64>, Refusal>
    requires { k + 2 ≤ state_words }
    ensures { told result ≡ Spec.change_of row.now k (D.source draws.now).values at other }
{
    if word(row, k + 1) == 1 {
        return Ok(Draw { value: other, at });
    }
    sample_value(row, k, draws, at)
}

// The counter that begins at word k of the row: its value after the update, and whether it reports zero.
#[tactic(auto, unfolding(steps::specs::Transition::update_one))]
fn update_one<D: Draws>(
    row: &[u64],
    k: usize,
    draws: &D,
    at: Place,
    old: u64,
    other: u64,
    zeroed: bool,
) -> Result<Counter, Refusal>
    requires { k + 2 ≤ state_words }
    ensures { told result ≡ Spec.update_one row.now k (D.source draws.now).values at old other zeroed }
{
    let operation = word(row, k);
    if operation == 0 {
        return Ok(Counter {
            value: old,
            at,
            zeroed,
            reports: false,
        });
    }
    let change = change_of(row, k, draws, at, other)?;
    let value = applied(operation, old, change.value);
    let reports = reports_zero(old, value, zeroed);
    Ok(Counter {
        value,
        at: change.at,
        zeroed: zeroed | reports,
        reports,
    })
}

// ---- the counters of a row

// Whether the row has no counter, so that nothing changes.
fn no_counters(row: &[u64]) -> bool
    ensures { result ≡ (eqb (get_or row.now counter_a 0) 0 && eqb (get_or row.now counter_b 0) 0) }
{
    word(row, COUNTER_A) == 0 && word(row, COUNTER_B) == 0
}

// A, then B, each by the values `old` from before the update: A copies B, and B copies A. Most rows have no counter.
#[tactic(auto, using(crate::proofs::Counters::uncounted), unfolding(steps::specs::Transition::update_counters, steps::specs::Transition::tally_a, steps::specs::Transition::tally_b))]
pub fn update_counters<D: Draws>(
    row: &[u64],
    draws: &D,
    old: Counters,
    zeroed: Zeroed,
    at: Place,
) -> Result<Tally, Refusal>
    ensures { told result ≡ Spec.update_counters row.now (D.source draws.now).values old zeroed at }
{
    if no_counters(row) {
        return Ok(Tally {
            counters: old,
            place: at,
            zeroed,
            reports: false,
        });
    }
    let Counters {
        counter_a: old_a,
        counter_b: old_b,
    } = old;
    let a = update_one(row, COUNTER_A, draws, at, old_a, old_b, zeroed.counter_a)?;
    let b = update_one(row, COUNTER_B, draws, a.at, old_b, old_a, zeroed.counter_b)?;
    Ok(Tally {
        counters: Counters {
            counter_a: a.value,
            counter_b: b.value,
        },
        place: b.at,
        zeroed: Zeroed {
            counter_a: a.zeroed,
            counter_b: b.zeroed,
        },
        reports: a.reports | b.reports,
    })
}
