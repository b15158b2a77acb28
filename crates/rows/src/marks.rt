// The targets of a long row that were met: a mark for each, a bit of a word. A machine of 100,000
// states has 12 KB of marks.
#![tactic(auto)]

ghost use Rattle.std.specs.Prelude.{◌≡◌, ℕ, ◌+◌, ◌*◌, ◌≤◌, ◌<◌, length};
ghost use Rattle.std.specs.List.{concat};
ghost use Rattle.machine.specs.Constants.{state_max};
ghost use Rattle.rows.specs.Marks.{mark_of, is_marked, marked, Met};

use super::Transition;
use super::seen::Seen;
use machine::constants::STATE_END;

// A mark for each state's number, then END's and SIGNAL's.
#[derive(Drop)]
pub struct Marks<const WORDS: usize> {
    pub words: [u64; WORDS],
}

// The mark of a target.
#[tactic(auto, unfolding(crate::specs::Marks::mark_of))]
fn mark_of(n: u64, target: u64) -> usize
    requires { n ≤ state_max }
    ensures is { result ≡ mark_of n target }
    ensures within { result < n + 2 }
{
    if target < n {
        target as usize
    } else if target == STATE_END {
        n as usize
    } else {
        n as usize + 1
    }
}

impl<const WORDS: usize> Marks<WORDS> {
    // Whether mark m is set; from now on it is.
    fn meet(&mut self, m: usize) -> bool
        requires { m < WORDS * 64 }
        ensures met { result ≡ is_marked self.old.words m }
        ensures more { self.new.words ≡ marked self.old.words m }
    {
        let word = self.words[m / 64];
        self.words[m / 64] = word | 1 << (m % 64);
        (word >> (m % 64)) % 2 == 1
    }
}

impl<const WORDS: usize> Seen for Marks<WORDS> {
    ghost Holds = { λ m ts n i. (n ≤ state_max) × (n + 2 ≤ WORDS * 64) × Met m.words ts n 0 i };

    fn seen(&mut self, row: &[Transition], n: u64, i: usize) -> bool {
        let [target, _] = row[i];
        self.meet(mark_of(n, target))
    }
}
