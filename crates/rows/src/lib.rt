// state.rs, `State::validate`: refusals 8 to 13 of a row of transitions, in one pass.
//
// Most rows have one transition or two, and are checked without a loop. In another short row a
// repeated target is found by looking back over it, at most 496 comparisons for 32 transitions. A
// longer row marks its targets: one clearing of 128 bytes, or of 12.5 KB where the machine has more
// than 1,022 states, then one test for each transition. A row with more than n + 2 transitions
// repeats a target, so no walk is longer than n + 3.
#![tactic(auto)]

ghost use Rattle.std.specs.Prelude.{◌≡◌, ◌+◌, ◌*◌, ◌%◌, ◌≤◌, ◌<◌, [], ◌∷◌, length, get_or, Bool, true, false, cond, eqb, MatchOption};
ghost use Rattle.std.specs.Float.{binary32};
ghost use Rattle.std.specs.Float.Ieee.{of_bits};
ghost use Rattle.std.specs.List.{concat};
ghost use Rattle.machine.specs.Constants.{state_max};
ghost use Rattle.machine.specs.State.{rows_of};
ghost use Rattle.refusal.specs.Refusal.{refusal_of};
ghost use Rattle.rows.specs.Row as Spec;

use machine::constants::{STATE_END, STATE_SIGNAL, TRANSITION_WORDS};
use marks::Marks;
use refusal::Refusal;
use seen::{LookBack, Seen};

mod marks; // the targets met in a long row
mod seen; // targets seen before in a row

// The most transitions of a row that is looked back over: to clear marks would cost more.
const SHORT_ROW: usize = 32;

// The most states whose marks fit `FEW_MARKS` words; any machine's fit `ALL_MARKS`.
const FEW_STATES: u64 = 1022;

const FEW_MARKS: usize = 16;

const ALL_MARKS: usize = 1563;

// The word of the probability 1. The words of those above 0 up to 1 are 1 to this one.
const ONE: u64 = 0x3f80_0000;

// A target, and the word of its probability.
type Transition = [u64; TRANSITION_WORDS];

// The transition table, as a machine with so many states reads it.
#[derive(Clone, Copy)]
pub struct Transitions<'a> {
    pub words: &'a [u64],
    pub states: u64,
    pub ghost few: { states ≤ state_max },
}

// ---- rows of a table

// The `count` rows of so many words from row `first` on; none where they reach beyond the table.
pub fn rows_within<const WORDS: usize>(
    table: &[u64],
    first: u64,
    count: u64,
) -> Option<&[[u64; WORDS]]>
    requires { 0 < WORDS }
    ensures { MatchOption result (length table.now < (first + count) * WORDS) (λ rows.
        ((first + count) * WORDS ≤ length table.now) × (length rows.now ≡ count) × (concat rows.now ≡ rows_of WORDS table.now first count)) }
{
    let (rows, _) = table.as_chunks::<WORDS>();
    let first = first as usize;
    let count = count as usize;
    let last = rows.len().checked_sub(count)?;
    if first <= last {
        Some(&rows[first..first + count])
    } else {
        None
    }
}

// ---- one transition

// The probability of a word. Up to ONE it is no NaN pattern.
#[tactic(auto, using(crate::proofs::Words::word_number))]
fn probability(word: u64) -> f32
    ensures { result ≡ of_bits binary32 (word % 4294967296) }
{
    if word <= ONE {
        f32::from_bits(word as u32)
    } else {
        numbers::f32_of_word(word)
    }
}

// A state of the machine, or a special one.
#[tactic(auto, unfolding(crate::specs::Row::is_target))]
fn is_target(n: u64, target: u64) -> bool
    ensures { result ≡ Spec.is_target n target }
{
    target < n || target == STATE_END || target == STATE_SIGNAL
}

// At or below 0, or above 1: a NaN passes.
#[tactic(auto, unfolding(crate::specs::Row::improbable))]
fn improbable(p: f32) -> bool
    ensures { result ≡ Spec.improbable p }
{
    p <= 0.0 || p > 1.0
}

// Refusals 9 to 12 of a transition, test by test; `seen`: its target stood in its row before.
#[tactic(auto, unfolding(crate::specs::Row::transition_refusal))]
fn check_in_order(transition: &Transition, n: u64, seen: bool) -> Result<(), Refusal>
    ensures { refusal_of result ≡ Spec.transition_refusal transition.now n 0 seen }
{
    let [target, word] = *transition;
    if word >= 4294967296 {
        Err(Refusal::ProbabilityWord)
    } else if !is_target(n, target) {
        Err(Refusal::UnknownTarget)
    } else if seen {
        Err(Refusal::RepeatedTarget)
    } else if improbable(probability(word)) {
        Err(Refusal::Probability)
    } else {
        Ok(())
    }
}

// Whether a transition goes to a state of the machine with a probability above 0 up to 1, as most do: such a one is refused only
// where its target repeats.
#[tactic(auto, using(crate::proofs::Words::usual))]
fn is_usual(transition: &Transition, n: u64) -> bool
    ensures { result ≡ true → (seen : Bool) → Spec.transition_refusal transition.now n 0 seen ≡ cond seen 11 0 }
{
    let [target, word] = *transition;
    target < n && word != 0 && word <= ONE
}

// The same as test by test.
fn check_transition(transition: &Transition, n: u64, seen: bool) -> Result<(), Refusal>
    ensures { refusal_of result ≡ Spec.transition_refusal transition.now n 0 seen }
{
    if !is_usual(transition, n) {
        return check_in_order(transition, n, seen);
    }
    if seen {
        return Err(Refusal::RepeatedTarget);
    }
    Ok(())
}

// The same of a transition that may go to END or SIGNAL.
#[tactic(auto, using(crate::proofs::Words::good))]
fn is_good(transition: &Transition, n: u64) -> bool
    ensures { result ≡ true → (seen : Bool) → Spec.transition_refusal transition.now n 0 seen ≡ cond seen 11 0 }
{
    let [target, word] = *transition;
    is_target(n, target) && word != 0 && word <= ONE
}

// Refusal 13.
#[tactic(auto, unfolding(crate::specs::Row::sum_refusal))]
fn check_sum(sum: f32) -> Result<(), Refusal>
    ensures { refusal_of result ≡ Spec.sum_refusal sum }
{
    if improbable(sum) {
        Err(Refusal::ProbabilitySum)
    } else {
        Ok(())
    }
}

// ---- a row: the sum of its probabilities, or the first refusal of its transitions

impl Transitions<'_> {
    // A row of one usual transition or of two is summed without a loop, and no test of it is passed on.
    fn is_usual_one(&self, only: &Transition) -> bool
        ensures { result ≡ true → 0 ≡ Spec.transition_refusal only.now self.now.states 0 false }
    {
        is_usual(only, self.states)
    }

    fn sum_of_one(&self, only: &Transition) -> f32
        requires { 0 ≡ Spec.transition_refusal only.now self.now.states 0 false }
        ensures { Spec.sum_refusal result ≡ Spec.row_refusal (concat (only.now ∷ [])) self.now.states 0 1 }
    {
        0.0 + probability(only[1])
    }

    fn are_usual(&self, first: &Transition, last: &Transition) -> bool
        ensures { result ≡ true → (0 ≡ Spec.transition_refusal first.now self.now.states 0 false)
            × (0 ≡ Spec.transition_refusal last.now self.now.states 0 (eqb (get_or first.now 0 0) (get_or last.now 0 0))) }
    {
        is_usual(first, self.states) && is_usual(last, self.states) && first[0] != last[0]
    }

    fn sum_of_two(&self, first: &Transition, last: &Transition) -> f32
        requires { (0 ≡ Spec.transition_refusal first.now self.now.states 0 false)
            × (0 ≡ Spec.transition_refusal last.now self.now.states 0 (eqb (get_or first.now 0 0) (get_or last.now 0 0))) }
        ensures { Spec.sum_refusal result ≡ Spec.row_refusal (concat (first.now ∷ last.now ∷ [])) self.now.states 0 2 }
    {
        0.0 + probability(first[1]) + probability(last[1])
    }

    // The same of rows that may go to END or SIGNAL.
    fn is_good_one(&self, only: &Transition) -> bool
        ensures { result ≡ true → 0 ≡ Spec.transition_refusal only.now self.now.states 0 false }
    {
        is_good(only, self.states)
    }

    fn are_good(&self, first: &Transition, last: &Transition) -> bool
        ensures { result ≡ true → (0 ≡ Spec.transition_refusal first.now self.now.states 0 false)
            × (0 ≡ Spec.transition_refusal last.now self.now.states 0 (eqb (get_or first.now 0 0) (get_or last.now 0 0))) }
    {
        is_good(first, self.states) && is_good(last, self.states) && first[0] != last[0]
    }

    // Any other row of one or of two, test by test.
    #[inline(never)]
    fn sum_of_any_one(&self, only: &Transition) -> Result<f32, Refusal>
        ensures { Spec.refusal_of_sum result ≡ Spec.row_refusal (concat (only.now ∷ [])) self.now.states 0 1 }
    {
        check_in_order(only, self.states, false)?;
        Ok(self.sum_of_one(only))
    }

    #[inline(never)]
    fn sum_of_any_two(&self, first: &Transition, last: &Transition) -> Result<f32, Refusal>
        ensures { Spec.refusal_of_sum result ≡ Spec.row_refusal (concat (first.now ∷ last.now ∷ [])) self.now.states 0 2 }
    {
        check_in_order(first, self.states, false)?;
        check_in_order(last, self.states, first[0] == last[0])?;
        Ok(self.sum_of_two(first, last))
    }

    // One turn a transition: its refusals, then its part of the sum.
    fn sum_of_each<S: Seen>(&self, row: &[Transition], met: &mut S) -> Result<f32, Refusal>
        requires { S.Holds met.old (concat row.now) self.now.states 0 }
        ensures { Spec.refusal_of_sum result ≡ Spec.row_refusal (concat row.now) self.now.states 0 (length row.now) }
    {
        let mut sum: f32 = 0.0;
        for (i, transition) in row.iter().enumerate() {
            let seen = met.seen(row, self.states, i);
            check_transition(transition, self.states, seen)?;
            sum += probability(transition[1]);
        }
        Ok(sum)
    }

    // With a clear mark for each target that there is.
    fn sum_of_marked<const WORDS: usize>(&self, row: &[Transition]) -> Result<f32, Refusal>
        requires room { self.now.states + 2 ≤ WORDS * 64 }
        requires few_words { WORDS ≤ ALL_MARKS }
        ensures { Spec.refusal_of_sum result ≡ Spec.row_refusal (concat row.now) self.now.states 0 (length row.now) }
    {
        self.sum_of_each(row, &mut Marks { words: [0; WORDS] })
    }

    fn sum_of_row(&self, row: &[Transition]) -> Result<f32, Refusal>
        ensures { Spec.refusal_of_sum result ≡ Spec.row_refusal (concat row.now) self.now.states 0 (length row.now) }
    {
        match row {
            [only] if self.is_usual_one(only) => Ok(self.sum_of_one(only)),
            [only] if self.is_good_one(only) => Ok(self.sum_of_one(only)),
            [only] => self.sum_of_any_one(only),
            [first, last] if self.are_usual(first, last) => Ok(self.sum_of_two(first, last)),
            [first, last] if self.are_good(first, last) => Ok(self.sum_of_two(first, last)),
            [first, last] => self.sum_of_any_two(first, last),
            _ if row.len() <= SHORT_ROW => self.sum_of_each(row, &mut LookBack),
            _ if self.states <= FEW_STATES => self.sum_of_marked::<FEW_MARKS>(row),
            _ => self.sum_of_marked::<ALL_MARKS>(row),
        }
    }

    fn check_row(&self, row: &[Transition]) -> Result<(), Refusal>
        ensures { refusal_of result ≡ Spec.row_refusal (concat row.now) self.now.states 0 (length row.now) }
    {
        check_sum(self.sum_of_row(row)?)
    }

    // A pair (first, count): that its rows are within the table, then each. With a count of 0 it has none.
    pub fn check_pair(&self, first: u64, count: u64) -> Result<(), Refusal>
        ensures { refusal_of result ≡ Spec.pair_refusal self.now.words.now self.now.states first count }
    {
        if count == 0 {
            return Ok(());
        }
        // not by `rows_within`: an option of rows costs more than the test
        let (rows, _) = self.words.as_chunks::<TRANSITION_WORDS>();
        let first = first as usize;
        let count = count as usize;
        if rows.len() < count || rows.len() - count < first {
            return Err(Refusal::RowBeyondTable);
        }
        self.check_row(&rows[first..first + count])
    }
}
