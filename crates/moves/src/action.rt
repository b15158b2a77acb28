// framework.rs: the action that a state's row schedules (schedule_action).
ghost use Rattle.refusal.specs.Refusal.{told};
ghost use Rattle.std.specs.Prelude.{◌≡◌};
ghost use Rattle.steps.specs.Transition.{returned_flags, returned_timer, schedule_action};

use machine::constants::{ACTION, CANCEL, FLAGS, TIMER, UPDATE_TIMER};
use machine::source::{Draw, Draws, Place};
use machine::state::word;
use refusal::Refusal;
use samples::action::{sample_duration, sample_timeout};
use steps::TriggerAction;

// Cancel has no flags, and UpdateTimer's bypass bit is not returned.
fn returned_flags(row: &[u64]) -> u64
    ensures { result ≡ returned_flags row.now }
{
    match word(row, ACTION) {
        CANCEL => 0,
        UPDATE_TIMER => word(row, FLAGS) / 2 % 2 * 2,
        _ => word(row, FLAGS),
    }
}

// Only Cancel names a timer.
fn returned_timer(row: &[u64]) -> u64
    ensures { result ≡ returned_timer row.now }
{
    if word(row, ACTION) == CANCEL {
        return word(row, TIMER);
    }
    0
}

// The timeout is drawn before the duration.
#[tactic(auto, unfolding(steps::specs::Transition::schedule_action))]
pub fn schedule_action<D: Draws>(
    row: &[u64],
    draws: &D,
    at: Place,
) -> Result<Draw<TriggerAction>, Refusal>
    ensures { told result ≡ schedule_action row.now (D.source draws.now).values at }
{
    let timeout = sample_timeout(row, draws, at)?;
    let duration = sample_duration(row, draws, timeout.at)?;
    let action = TriggerAction {
        kind: word(row, ACTION),
        flags: returned_flags(row),
        timer: returned_timer(row),
        timeout: timeout.value,
        duration: duration.value,
    };
    Ok(Draw {
        value: action,
        at: duration.at,
    })
}
