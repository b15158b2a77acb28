// dist.rs: a distribution, and what is drawn from it.
#![tactic(auto)]

ghost use Rattle.refusal.specs.Refusal.{told};
ghost use Rattle.std.specs.Prelude.{◌≡◌, ◌≤◌};
ghost use Rattle.machine.specs.Constants.{state_words};
ghost use Rattle.dists.specs.Dist as Spec;

use machine::constants::{ABSENT, UNIFORM};
use machine::source::{Draw, Draws, Place};
use machine::state::word;
use refusal::Refusal;

// The kind of a distribution. Document 01's "drawn outside" stands for the ten kinds other than
// Uniform.
#[derive(Clone, Copy)]
pub enum DistType {
    Absent,
    Uniform(f64, f64),
    Outside,
}

#[derive(Clone, Copy)]
pub struct Dist {
    pub dist: DistType,
    pub start: f64,
    pub max: f64,
}

// ---- five words of a row

// Every kind but the first two reads as drawn outside; the table checks leave only 2.
fn dist_type(kind: u64, low: f64, high: f64) -> DistType
    ensures { result ≡ Spec.dist_type kind low high }
{
    if kind == ABSENT {
        return DistType::Absent;
    }
    if kind == UNIFORM {
        return DistType::Uniform(low, high);
    }
    DistType::Outside
}

// The f64 whose bits are word k of a row.
fn f64_at(row: &[u64], k: usize) -> f64
    ensures { result ≡ Spec.f64_at row.now k }
{
    numbers::f64_of_word(word(row, k))
}

// The distribution that begins at word k of a state row.
fn dist_at(row: &[u64], k: usize) -> Dist
    requires { k ≤ state_words }
    ensures { result ≡ Spec.dist_at row.now k }
{
    let dist = dist_type(word(row, k), f64_at(row, k + 1), f64_at(row, k + 2));
    let start = f64_at(row, k + 3);
    let max = f64_at(row, k + 4);
    Dist { dist, start, max }
}

// ---- Dist::validate: the parameters of a Uniform

// Finite bounds in order, whose difference is finite too.
pub fn valid_uniform(low: f64, high: f64) -> bool
    ensures { result ≡ Spec.valid_uniform low high }
{
    let finite = numbers::is_finite(low) & numbers::is_finite(high);
    finite & !(low > high) & numbers::is_finite(high - low)
}

// ---- Dist::dist_sample and Dist::sample

// With low = high a Uniform value takes no draw. Callers do not sample an absent distribution.
#[tactic(auto, unfolding(crate::specs::Dist::dist_sample, crate::specs::Dist::uniform_draw, crate::specs::Dist::outside_draw))]
fn dist_sample<D: Draws>(d: Dist, draws: &D, at: Place) -> Result<Draw<f64>, Refusal>
    ensures { told result ≡ Spec.dist_sample d (D.source draws.now).values at }
{
    match d.dist {
        DistType::Absent => Ok(Draw { value: 0.0, at }),
        DistType::Uniform(low, high) => {
            if low == high {
                return Ok(Draw { value: low, at });
            }
            draws.uniform(low, high, at)
        }
        DistType::Outside => draws.outside(at),
    }
}

// What is not finite, or not above 0, becomes 0.0.
fn or_zero(x: f64) -> f64
    ensures { result ≡ Spec.or_zero x }
{
    if numbers::is_finite(x) & (x > 0.0) {
        return x;
    }
    0.0
}

// A sampled value with the start added, then at least 0. A max above 0 caps it; a NaN is not above
// 0.
fn adjusted(d: Dist, sampled: f64) -> f64
    ensures { result ≡ Spec.adjusted d sampled }
{
    let x = or_zero(sampled + d.start);
    let max = d.max;
    if (max > 0.0) & (max < x) {
        return max;
    }
    x
}

// Dist::sample of the distribution that begins at word k of a state row.
#[tactic(auto, unfolding(crate::specs::Dist::sample))]
pub fn sample<D: Draws>(row: &[u64], k: usize, draws: &D, at: Place) -> Result<Draw<f64>, Refusal>
    requires { k ≤ state_words }
    ensures { told result ≡ Spec.sample (Spec.dist_at row.now k) (D.source draws.now).values at }
{
    let d = dist_at(row, k);
    let drawn = dist_sample(d, draws, at)?;
    Ok(Draw {
        value: adjusted(d, drawn.value),
        at: drawn.at,
    })
}
