// Whether a transition's target stood in its row before.
#![tactic(auto)]

ghost use Rattle.std.specs.Prelude.{◌≡◌, ℕ, List, true, ◌+◌, ◌<◌, length};
ghost use Rattle.std.specs.List.{concat};
ghost use Rattle.machine.specs.State.{target_at};
ghost use Rattle.rows.specs.Row as Spec;

use super::Transition;

// What is kept of the transitions that were checked.
pub trait Seen {
    // Holds where the first i transitions of a row of a machine with n states are kept.
    ghost Holds: { Self → List ℕ → ℕ → ℕ → Type 0 };

    // Whether transition i has the target of an earlier one; then it is kept too. Where it has no
    // target, nothing is promised.
    fn seen(&mut self, row: &[Transition], n: u64, i: usize) -> bool
        requires inside { i < length row.now }
        requires kept { Holds self.old (concat row.now) n i }
        ensures { Spec.is_target n (target_at (concat row.now) i) ≡ true →
            (result ≡ Spec.seen_before (concat row.now) 0 i) × Holds self.new (concat row.now) n (i + 1) };
}

// Nothing is kept: the row is looked back over.
#[derive(Drop)]
pub struct LookBack;

impl Seen for LookBack {
    ghost Holds = { λ _ _ _ _. Unit {0} };

    fn seen(&mut self, row: &[Transition], _n: u64, i: usize) -> bool {
        let [target, _] = row[i];
        row[..i].iter().any(|earlier| earlier[0] == target)
    }
}
