// counter.rs: what a counter changes by.
ghost use Rattle.refusal.specs.Refusal.{told};
ghost use Rattle.std.specs.Prelude.{◌≡◌, ◌+◌, ◌≤◌};
ghost use Rattle.machine.specs.Constants.{state_words};
ghost use Rattle.samples.specs.Counter.{sample_value};

use dists::sample;
use machine::constants::{ABSENT, COUNTER_DIST};
use machine::source::{Draw, Draws, Place};
use machine::state::word;
use refusal::Refusal;

// The value of the counter that begins at word k: cut to a whole number, not rounded; 1 without a distribution.
#[tactic(auto, unfolding(crate::specs::Counter::sample_value))]
pub fn sample_value<D: Draws>(
    row: &[u64],
    k: usize,
    draws: &D,
    at: Place,
) -> Result<Draw<u64>, Refusal>
    requires { k + 2 ≤ state_words }
    ensures { told result ≡ sample_value row.now k (D.source draws.now).values at }
{
    let dist = k + COUNTER_DIST;
    if word(row, dist) == ABSENT {
        return Ok(Draw { value: 1, at });
    }
    let drawn = sample(row, dist, draws, at)?;
    Ok(Draw {
        value: numbers::cut(drawn.value),
        at: drawn.at,
    })
}
