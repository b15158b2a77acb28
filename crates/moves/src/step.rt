// The parts of a step: what a transition makes of its machine before and after its counter update.
ghost use Rattle.refusal.specs.Refusal.{told};
ghost use Rattle.std.specs.Prelude.{◌≡◌, Ok, true, ◌<◌};
ghost use Rattle.machine.specs.Constants.{state_end};
ghost use Rattle.steps.specs.Limits.{below_action_limits};
ghost use Rattle.steps.specs.Transition as Spec;

use super::action::schedule_action;
use limits::below_action_limits;
use machine::constants::STATE_END;
use machine::source::{Draw, Draws, Place};
use refusal::Refusal;
use samples::action::sample_limit;
use steps::{Context, MachineRuntime, Step, Tally, Update};

// ---- answers

// A machine that ends keeps its limit and its pending action; that is a change.
pub fn ended(d: Step) -> Step
    ensures { Ok result ≡ Spec.done (Spec.with_state d.runtime state_end d.runtime.state_limit) d.shared d.action true }
{
    let mut e = d;
    e.runtime.current_state = STATE_END;
    e.changed = true;
    e
}

// ---- a signal, and a state that is entered

// A raised signal leaves out its sender, unless one was raised before.
#[tactic(auto, unfolding(steps::specs::Transition::raise))]
pub fn raise(pending: u64, machine: u64) -> u64
    requires { machine < 16 }
    ensures { result ≡ Spec.raise pending machine }
{
    if pending == 0 { 2 + machine } else { 1 }
}

// Entering another state draws its limit; the same one keeps what is left of it.
#[tactic(auto, unfolding(steps::specs::Transition::enter))]
pub fn enter<D: Draws>(
    row: &[u64],
    draws: &D,
    r: MachineRuntime,
    state: u64,
    at: Place,
) -> Result<Draw<MachineRuntime>, Refusal>
    ensures { told result ≡ Spec.enter row.now (D.source draws.now).values r state at }
{
    if r.current_state == state {
        return Ok(Draw { value: r, at });
    }
    let limit = sample_limit(row, draws, at)?;
    let mut q = r;
    q.current_state = state;
    q.state_limit = limit.value;
    Ok(Draw {
        value: q,
        at: limit.at,
    })
}

// ---- after the counters

// The machine with its counters' new values, and which of them have reported zero.
pub fn counted(d: Step, t: Tally) -> Update
    ensures { result ≡ Spec.counted d.runtime d.shared d.action t }
{
    let mut runtime = d.runtime;
    runtime.counters = t.counters;
    let mut shared = d.shared;
    shared.place = t.place;
    shared.zeroed = t.zeroed;
    Update {
        runtime,
        shared,
        action: d.action,
        allow_schedule: true,
        state_changed: false,
    }
}

// Out of a state and back is a change.
fn has_changed(before: u64, u: &Update) -> bool
    ensures { result ≡ Spec.has_changed before u.now }
{
    u.state_changed || before != u.runtime.current_state
}

// The action is scheduled where a CounterZero left the machine none, and where the limits allow it:
// they are judged with the machine as it entered the state, before its counters.
#[tactic(auto, unfolding(steps::specs::Transition::finish))]
pub fn finished<D: Draws>(
    row: &[u64],
    draws: &D,
    c: &Context,
    entered: &MachineRuntime,
    before: u64,
    updated: Result<Update, Refusal>,
) -> Result<Step, Refusal>
    ensures { told result ≡ Spec.finished row.now (D.source draws.now).values before (below_action_limits c.now entered.now row.now) (told updated) }
{
    let u = updated?;
    let mut d = Step {
        runtime: u.runtime,
        shared: u.shared,
        action: u.action,
        changed: has_changed(before, &u),
    };
    if u.allow_schedule && below_action_limits(c, entered, row) {
        let scheduled = schedule_action(row, draws, d.shared.place)?;
        d.shared.place = scheduled.at;
        d.action = Some(scheduled.value);
    }
    Ok(d)
}

// After a CounterZero the outer action is scheduled only where the machine has none.
pub fn after_zero(stepped: Result<Step, Refusal>) -> Result<Update, Refusal>
    ensures { told result ≡ Spec.after_zero (told stepped) }
{
    let d = stepped?;
    Ok(Update {
        runtime: d.runtime,
        shared: d.shared,
        action: d.action,
        allow_schedule: d.action.is_none(),
        state_changed: d.changed,
    })
}
