// framework.rs, process_event: the events of a batch in order, each heard by its machines in order.
#![tactic(auto)]

ghost use Rattle.std.specs.Prelude.{◌≡◌, true, ◌/◌, ◌<◌, ◌≤◌, length, get_or, Ok, IfOk};
ghost use Rattle.machine.specs.Constants.{counter_num, machine_max};
ghost use Rattle.machine.specs.Event.{timer_end_kind};
ghost use Rattle.machine.specs.Tables.{lent_tables};
ghost use Rattle.steps.specs.Events.{after_transition, each, go, stored, machine_turn, process_event, event_turn};
ghost use Rattle.steps.specs.Framework.{shared_from, begin, kinds_fit};
ghost use Rattle.steps.specs.Transition.{lent_env, no_action};
ghost use Rattle.transition.specs.Transition.{going_at};
ghost use Rattle.events.specs.Run.{outcome_of, left_as};

use account::{
    blocked_for, context_of, counted_by, end_for, first_for, limit_falls, only_counts, states_of,
    totals_after,
};
use machine::event::event_of;
use machine::source::{Draws, Place};
use machine::tables::Tables;
use moves::choice::choose;
use moves::settle::{Short, runtime_after, shared_after, short_way};
use refusal::Refusal;
use steps::{Env, Framework, MachineRuntime, Run, Shared, Step, Zeroed};
use transition::{after_transition, going};

// What a call shares as it begins: no counter has reported zero, the draws are at their front.
fn shared_from(signal_pending: u64) -> Shared
    ensures { result ≡ shared_from signal_pending }
{
    Shared {
        signal_pending,
        place: Place {
            chance_at: 0,
            value_at: 0,
        },
        zeroed: Zeroed {
            counter_a: false,
            counter_b: false,
        },
    }
}

// A run before its first event.
pub fn begin(fw: &Framework, time: u64) -> Run
    ensures { result ≡ begin fw.now time }
{
    let mut x = Run {
        framework: *fw,
        actions: [None; 16],
        shared: shared_from(fw.signal_pending),
    };
    x.framework.current_time = time;
    x
}

// A machine's step goes back into the run; the other machines stay as they were.
pub fn store(x: &mut Run, m: usize, d: Step)
    requires { m < machine_max }
    ensures is { go x.new ≡ stored x.old m (Ok d) }
    ensures keeps { x.new.framework.machines ≡ x.old.framework.machines }
{
    x.framework.runtime[m] = d.runtime;
    x.actions[m] = d.action;
    x.shared = d.shared;
}

// A machine's turn on the long way.
fn long_turn<D: Draws>(
    x: &mut Run,
    e: &Env<D>,
    falls: bool,
    chosen: Option<u64>,
    counted: MachineRuntime,
    m: usize,
) -> Result<(), Refusal>
    requires { m < machine_max }
    ensures is { left_as result x.new ≡ stored x.old m (after_transition (lent_env D.source e.now) falls
        (going_at counter_num (lent_env D.source e.now) chosen counted x.old.shared (get_or x.old.actions m no_action))) }
    ensures keeps { x.new.framework.machines ≡ x.old.framework.machines }
{
    let d = Step {
        runtime: counted,
        shared: x.shared,
        action: x.actions[m],
        changed: false,
    };
    let stepped = after_transition(e, falls, going(e, chosen, d))?;
    store(x, m, stepped);
    Ok(())
}

// A machine's turn at an event; `blocked` is how long the blocking that ends was on.
fn machine_turn<D: Draws>(
    x: &mut Run,
    t: &Tables,
    draws: &D,
    kind: u64,
    machine: u64,
    blocked: u64,
    m: usize,
) -> Result<(), Refusal>
    requires few { m < machine_max }
    requires known { kind ≤ timer_end_kind }
    ensures is { left_as result x.new ≡ machine_turn (lent_tables t.now) (D.source draws.now) kind machine blocked m x.old }
    ensures keeps { x.new.framework.machines ≡ x.old.framework.machines }
{
    let falls = limit_falls(kind, machine, m as u64);
    let r = x.framework.runtime[m];
    let counted = counted_by(kind, blocked, r);
    let rows = states_of(t, m);
    let event = event_of(kind);
    let choice = choose(
        rows,
        t.transitions,
        draws,
        r.current_state,
        event,
        x.shared.place,
    )?;
    x.shared.place = choice.at;
    if only_counts(falls, choice.value) {
        x.framework.runtime[m] = counted;
        return Ok(());
    }
    let e = Env {
        rows,
        transitions: t.transitions,
        draws,
        context: context_of(t.machines, m, &x.framework),
    };
    match short_way(
        rows,
        draws,
        &e.context,
        falls,
        choice.value,
        counted,
        &x.shared,
    ) {
        Short::Elsewhere => long_turn(x, &e, falls, choice.value, counted, m),
        Short::Kept(d) => {
            x.framework.runtime[m] = runtime_after(counted, d);
            x.shared = shared_after(x.shared, d);
            Ok(())
        }
        Short::Acted(p, d) => {
            x.actions[m] = Some(p);
            x.framework.runtime[m] = runtime_after(counted, d);
            x.shared = shared_after(x.shared, d);
            Ok(())
        }
    }
}

// An event: the framework's own counts first, then its machines in order.
fn event_turn<D: Draws>(
    x: &mut Run,
    t: &Tables,
    draws: &D,
    kind: u64,
    machine: u64,
) -> Result<(), Refusal>
    requires { kind ≤ timer_end_kind }
    ensures is { left_as result x.new ≡ process_event (lent_tables t.now) (D.source draws.now) kind machine x.old }
    ensures keeps { x.new.framework.machines ≡ x.old.framework.machines }
{
    let time = x.framework.current_time;
    let totals = x.framework.totals;
    let blocked = blocked_for(time, totals);
    let first = first_for(kind, machine);
    let end = end_for(kind, machine, numbers::smaller(x.framework.machines, 16));
    x.framework.totals = totals_after(kind, time, totals);
    for m in first as usize..end as usize {
        machine_turn(x, t, draws, kind, machine, blocked, m)?;
    }
    Ok(())
}

// The events in order, of a run that is changed in place; after a refusal it is spoiled.
pub fn process_events<D: Draws>(
    x: &mut Run,
    t: &Tables,
    events: &[u64],
    draws: &D,
) -> Result<(), Refusal>
    requires { kinds_fit events.now (length events.now / 2) ≡ true }
    ensures is { let es = events.now in
        left_as result x.new ≡ each (event_turn (lent_tables t.now) (D.source draws.now) es) (length es / 2) 0 x.old }
    ensures keeps { x.new.framework.machines ≡ x.old.framework.machines }
{
    for i in 0..events.len() / 2 {
        event_turn(x, t, draws, events[i * 2], events[i * 2 + 1])?;
    }
    Ok(())
}

// The run over all events, at a new time.
pub fn run_events<D: Draws>(
    fw: &Framework,
    t: &Tables,
    time: u64,
    events: &[u64],
    draws: &D,
) -> Result<Run, Refusal>
    requires { kinds_fit events.now (length events.now / 2) ≡ true }
    ensures is { let es = events.now in
        outcome_of result ≡ each (event_turn (lent_tables t.now) (D.source draws.now) es) (length es / 2) 0 (begin fw.now time) }
    ensures keeps { IfOk result (λ x. x.framework.machines ≡ fw.now.machines) }
{
    let mut x = begin(fw, time);
    process_events(&mut x, t, events, draws)?;
    Ok(x)
}
