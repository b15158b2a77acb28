// The inner half of framework.rs: one machine's transition with its counter update, and the fall of
// its state limit. One machine goes in and comes back.
#![tactic(auto)]

ghost use Rattle.refusal.specs.Refusal.{told};
ghost use Rattle.std.specs.Prelude.{◌≡◌, Ok, ℕ, ◌≤◌, ◌<◌};
ghost use Rattle.steps.specs.Transition as Spec;
ghost use Rattle.steps.specs.Transition.{lent_env, left};
ghost use Rattle.steps.specs.Events as Events;
ghost use Rattle.transition.specs.Transition.{going_at};

use counters::update_counters;
use machine::constants::{STATE_END, STATE_SIGNAL};
use machine::event::{COUNTER_ZERO, LIMIT_REACHED};
use machine::source::Draws;
use machine::state::state_row;
use moves::choice::choose;
use moves::step::{after_zero, counted, ended, enter, finished, raise};
use refusal::Refusal;
use samples::action::has_limit;
use steps::{Env, Step, Update};

// ---- the cycle: a transition updates counters, and a counter that reaches zero starts a
// CounterZero transition. What falls is how many counters may still report zero in this call.

// update_counter, of the row of the machine's state: its counters, then the CounterZero transition
// where one reports zero.
#[cycle(going_transition_update_counter)]
#[tactic(auto, unfolding(steps::specs::Transition::update_counter))]
fn update_counter<D: Draws>(e: &Env<D>, row: &[u64], d: Step) -> Result<Update, Refusal>
    ensures { (n : ℕ) → left d.shared ≤ n → told result ≡ Spec.update_counter_at n (lent_env D.source e.now) row.now d.runtime d.shared d.action }
{
    let t = update_counters(
        row,
        e.draws,
        d.runtime.counters,
        d.shared.zeroed,
        d.shared.place,
    )?;
    let u = counted(d, t);
    if t.reports {
        let zero = Step {
            runtime: u.runtime,
            shared: u.shared,
            action: u.action,
            changed: false,
        };
        return after_zero(transition(e, COUNTER_ZERO, zero));
    }
    Ok(u)
}

// What follows the choice of a next state. Without one it ends there; END and SIGNAL are no states
// to go to.
#[cycle(going_transition_update_counter)]
#[tactic(auto, unfolding(crate::specs::Transition::going_at))]
pub fn going<D: Draws>(e: &Env<D>, chosen: Option<u64>, d: Step) -> Result<Step, Refusal>
    ensures { (n : ℕ) → left d.shared ≤ n → told result ≡ going_at n (lent_env D.source e.now) chosen d.runtime d.shared d.action }
{
    let mut t = d;
    t.changed = false;
    let Some(next) = chosen else {
        return Ok(t);
    };
    if next == STATE_END {
        return Ok(ended(t));
    }
    if next == STATE_SIGNAL {
        t.shared.signal_pending = raise(d.shared.signal_pending, e.context.machine);
        return Ok(t);
    }
    let row = state_row(e.rows, next);
    let entered = enter(row, e.draws, d.runtime, next, d.shared.place)?;
    t.runtime = entered.value;
    t.shared.place = entered.at;
    let updated = update_counter(e, row, t);
    finished(
        row,
        e.draws,
        &e.context,
        &entered.value,
        d.runtime.current_state,
        updated,
    )
}

#[cycle(going_transition_update_counter)]
pub fn transition<D: Draws>(e: &Env<D>, event: u64, d: Step) -> Result<Step, Refusal>
    requires { event < 13 }
    ensures { (n : ℕ) → left d.shared ≤ n → told result ≡ Spec.transition_at n (lent_env D.source e.now) event d.runtime d.shared d.action }
{
    let choice = choose(
        e.rows,
        e.transitions,
        e.draws,
        d.runtime.current_state,
        event,
        d.shared.place,
    )?;
    let mut t = d;
    t.shared.place = choice.at;
    going(e, choice.value, t)
}

// decrement_limit: not below 0. At 0, where the action has a limit, the pending action goes and
// LimitReached follows.
#[tactic(auto, unfolding(steps::specs::Transition::decrement_limit))]
fn decrement_limit<D: Draws>(e: &Env<D>, d: Step) -> Result<Step, Refusal>
    ensures { told result ≡ Spec.decrement_limit (lent_env D.source e.now) d.runtime d.shared d.action }
{
    let mut t = d;
    t.runtime.state_limit = numbers::saturating_sub(d.runtime.state_limit, 1);
    t.changed = false;
    if t.runtime.state_limit == 0 && has_limit(state_row(e.rows, d.runtime.current_state)) {
        t.action = None;
        return transition(e, LIMIT_REACHED, t);
    }
    Ok(t)
}

// After a transition: where the event is one at which the state limit falls, it falls unless the
// machine changed state or ended.
pub fn after_transition<D: Draws>(
    e: &Env<D>,
    falls: bool,
    stepped: Result<Step, Refusal>,
) -> Result<Step, Refusal>
    ensures { told result ≡ Events.after_transition (lent_env D.source e.now) falls (told stepped) }
{
    let d = stepped?;
    if falls && !d.changed && d.runtime.current_state != STATE_END {
        return decrement_limit(e, d);
    }
    Ok(d)
}
