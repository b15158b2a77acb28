// action.rs: what an action draws.
ghost use Rattle.refusal.specs.Refusal.{told};
ghost use Rattle.std.specs.Prelude.{◌≡◌, min, ◌≤◌};
ghost use Rattle.numbers.specs.Round.{round_away};
ghost use Rattle.machine.specs.Constants.{state_words};
ghost use Rattle.dists.specs.Dist.{dist_at, sample, whole_of};
ghost use Rattle.samples.specs.Action.{sample_timeout, sample_duration, has_limit, sample_limit};

use dists::sample;
use machine::constants::{
    ABSENT, ACTION, BLOCK_OUTGOING, DURATION, LIMIT, MAX_SAMPLED_DURATION, MAX_SAMPLED_TIMEOUT,
    SEND_PADDING, STATE_LIMIT_MAX, TIMEOUT, UPDATE_TIMER,
};
use machine::source::{Draw, Draws, Place};
use machine::state::word;
use refusal::Refusal;

// A sample of the distribution that begins at word k, to the nearest whole number, halves away from zero, at most `most`.
fn sample_rounded<D: Draws>(
    row: &[u64],
    k: usize,
    most: u64,
    draws: &D,
    at: Place,
) -> Result<Draw<u64>, Refusal>
    requires { k ≤ state_words }
    ensures { told result ≡ whole_of (λ x. min (round_away x) most) (sample (dist_at row.now k) (D.source draws.now).values at) }
{
    let drawn = sample(row, k, draws, at)?;
    Ok(Draw {
        value: numbers::smaller(numbers::round_half_away(drawn.value), most),
        at: drawn.at,
    })
}

// Action::sample_timeout: of SendPadding and BlockOutgoing; 0, with no draw, for any other action.
#[tactic(auto, unfolding(crate::specs::Action::sample_timeout))]
pub fn sample_timeout<D: Draws>(row: &[u64], draws: &D, at: Place) -> Result<Draw<u64>, Refusal>
    ensures { told result ≡ sample_timeout row.now (D.source draws.now).values at }
{
    let action = word(row, ACTION);
    if (action == SEND_PADDING) | (action == BLOCK_OUTGOING) {
        return sample_rounded(row, TIMEOUT, MAX_SAMPLED_TIMEOUT, draws, at);
    }
    Ok(Draw { value: 0, at })
}

// Action::sample_duration: of BlockOutgoing and UpdateTimer; 0, with no draw, for any other action.
#[tactic(auto, unfolding(crate::specs::Action::sample_duration))]
pub fn sample_duration<D: Draws>(row: &[u64], draws: &D, at: Place) -> Result<Draw<u64>, Refusal>
    ensures { told result ≡ sample_duration row.now (D.source draws.now).values at }
{
    let action = word(row, ACTION);
    if (action == BLOCK_OUTGOING) | (action == UPDATE_TIMER) {
        return sample_rounded(row, DURATION, MAX_SAMPLED_DURATION, draws, at);
    }
    Ok(Draw { value: 0, at })
}

// Action::has_limit: every action but Cancel may have one.
#[tactic(auto, unfolding(crate::specs::Action::has_limit))]
pub fn has_limit(row: &[u64]) -> bool
    ensures { result ≡ has_limit row.now }
{
    let action = word(row, ACTION);
    let may = (action == SEND_PADDING) | (action == BLOCK_OUTGOING) | (action == UPDATE_TIMER);
    may & (word(row, LIMIT) != ABSENT)
}

// Action::sample_limit; the largest u64, with no draw, where there is no limit.
#[tactic(auto, unfolding(crate::specs::Action::sample_limit))]
pub fn sample_limit<D: Draws>(row: &[u64], draws: &D, at: Place) -> Result<Draw<u64>, Refusal>
    ensures { told result ≡ sample_limit row.now (D.source draws.now).values at }
{
    if has_limit(row) {
        return sample_rounded(row, LIMIT, STATE_LIMIT_MAX, draws, at);
    }
    Ok(Draw {
        value: STATE_LIMIT_MAX,
        at,
    })
}
