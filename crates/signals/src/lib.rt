// The signals after the last event of a batch.
#![tactic(auto)]

ghost use Rattle.std.specs.Prelude.{◌≡◌, ◌<◌, IfOk};
ghost use Rattle.machine.specs.Constants.{machine_max};
ghost use Rattle.machine.specs.Tables.{lent_tables};
ghost use Rattle.steps.specs.Events.{signal_machine, signal_turn, last_signal, signals};
ghost use Rattle.events.specs.Run.{outcome_of, left_as};

use account::{context_of, states_of};
use events::store;
use machine::event::SIGNAL;
use machine::source::Draws;
use machine::tables::Tables;
use refusal::Refusal;
use steps::{Env, Run, Step};
use transition::transition;

// A machine hears a signal.
#[tactic(auto, unfolding(steps::specs::Events::signal_machine))]
fn signal_machine<D: Draws>(x: &mut Run, t: &Tables, draws: &D, m: usize) -> Result<(), Refusal>
    requires { m < machine_max }
    ensures is { left_as result x.new ≡ signal_machine (lent_tables t.now) (D.source draws.now) m x.old }
    ensures keeps { x.new.framework.machines ≡ x.old.framework.machines }
{
    let e = Env {
        rows: states_of(t, m),
        transitions: t.transitions,
        draws,
        context: context_of(t.machines, m, &x.framework),
    };
    let d = Step {
        runtime: x.framework.runtime[m],
        shared: x.shared,
        action: x.actions[m],
        changed: false,
    };
    let heard = transition(&e, SIGNAL, d)?;
    store(x, m, heard);
    Ok(())
}

// A machine's turn in a round for the signal `taken`, which may leave it out.
fn signal_turn<D: Draws>(
    x: &mut Run,
    t: &Tables,
    draws: &D,
    taken: u64,
    m: usize,
) -> Result<(), Refusal>
    requires { m < machine_max }
    ensures is { left_as result x.new ≡ signal_turn (lent_tables t.now) (D.source draws.now) taken m x.old }
    ensures keeps { x.new.framework.machines ≡ x.old.framework.machines }
{
    if taken == 2 + m as u64 {
        return Ok(());
    }
    signal_machine(x, t, draws, m)
}

// After a round for the signal `taken`: if that raised another, the machine left out hears it last, and what it raises stays
// pending; with none left out that signal is dropped.
fn last_signal<D: Draws>(x: &mut Run, t: &Tables, draws: &D, taken: u64) -> Result<(), Refusal>
    ensures is { left_as result x.new ≡ last_signal (lent_tables t.now) (D.source draws.now) taken x.old }
    ensures keeps { x.new.framework.machines ≡ x.old.framework.machines }
{
    if x.shared.signal_pending == 0 {
        return Ok(());
    }
    x.shared.signal_pending = 0;
    if 2 <= taken && taken < 2 + numbers::smaller(x.framework.machines, 16) {
        return signal_machine(x, t, draws, (taken - 2) as usize);
    }
    Ok(())
}

// A pending signal is taken, and each machine but the one left out hears it. The run is changed in place; after a refusal it is
// spoiled.
pub fn process_signals<D: Draws>(x: &mut Run, t: &Tables, draws: &D) -> Result<(), Refusal>
    ensures is { left_as result x.new ≡ signals (lent_tables t.now) (D.source draws.now) x.old }
    ensures keeps { x.new.framework.machines ≡ x.old.framework.machines }
{
    let taken = x.shared.signal_pending;
    if taken == 0 {
        return Ok(());
    }
    x.shared.signal_pending = 0;
    for m in 0..numbers::smaller(x.framework.machines, 16) as usize {
        signal_turn(x, t, draws, taken, m)?;
    }
    last_signal(x, t, draws, taken)
}

// The same of a run that stays as it is.
pub fn run_signals<D: Draws>(x: &Run, t: &Tables, draws: &D) -> Result<Run, Refusal>
    ensures is { outcome_of result ≡ signals (lent_tables t.now) (D.source draws.now) x.now }
    ensures keeps { IfOk result (λ y. y.framework.machines ≡ x.now.framework.machines) }
{
    let mut y = *x;
    process_signals(&mut y, t, draws)?;
    Ok(y)
}
