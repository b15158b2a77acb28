// What a batch refuses beside its tables: a framework that does not fit them (18), and events that
// are not whole or of an unknown kind (19).
ghost use Rattle.std.specs.Prelude.{◌≡◌, cond, ◌≤◌};
ghost use Rattle.machine.specs.Constants.{machine_max};
ghost use Rattle.machine.specs.Tables.{lent_tables};
ghost use Rattle.steps.specs.Framework as Spec;

use machine::constants::{MACHINE_WORDS, NUM_STATES, STATE_END};
use machine::event::TIMER_END_KIND;
use machine::state::word;
use machine::tables::Tables;
use steps::{Framework, MachineRuntime};

// Whether the current states of the first `count` machines are ended, or the machines' own.
fn states_fit(fw: &Framework, t: &Tables, count: usize) -> bool
    requires { count ≤ machine_max }
    ensures { result ≡ Spec.states_fit (lent_tables t.now) fw.now count }
{
    for m in 0..count {
        let state = fw.runtime[m].current_state;
        if state != STATE_END && state >= word(t.machines, m * MACHINE_WORDS + NUM_STATES) {
            return false;
        }
    }
    true
}

// 1 for a machine that has ended.
fn one_if_ended(r: &MachineRuntime) -> u64
    ensures { result ≡ cond (Spec.has_ended r.now) 1 0 }
{
    if r.current_state == STATE_END { 1 } else { 0 }
}

// How many of the first `count` machines have ended.
pub fn ended_in(fw: &Framework, count: usize) -> u64
    requires { count ≤ machine_max }
    ensures { result ≡ Spec.ended_in fw.now.runtime count }
{
    let mut ended = 0;
    for m in 0..count {
        ended += one_if_ended(&fw.runtime[m]);
    }
    ended
}

// 18: the machine count, the states, a pending signal that leaves out an unknown machine, and the ended number.
#[tactic(auto, unfolding(steps::specs::Framework::fits_tables))]
pub fn fits_tables(fw: &Framework, t: &Tables) -> bool
    requires { Spec.rows_in t.now.machines.now ≤ machine_max }
    ensures { result ≡ Spec.fits_tables (lent_tables t.now) fw.now }
{
    let count = t.machines.len() / MACHINE_WORDS;
    fw.machines == count as u64
        && states_fit(fw, t, count)
        && fw.signal_pending < 2 + count as u64
        && fw.ended == ended_in(fw, count)
}

// 19: whole events, each of a known kind.
pub fn events_fit(events: &[u64]) -> bool
    ensures { result ≡ Spec.events_fit events.now }
{
    if events.len() % 2 != 0 {
        return false;
    }
    for i in 0..events.len() / 2 {
        if events[i * 2] > TIMER_END_KIND {
            return false;
        }
    }
    true
}
