// process_event of framework.rs, but for the machines' transitions: what an event counts, and which
// machines hear it. The framework and the tables are lent, never handed over.
#![tactic(auto)]

ghost use Rattle.std.specs.Prelude.{◌≡◌, ◌+◌, ◌≤◌, ◌<◌};
ghost use Rattle.machine.specs.Constants.{machine_max};
ghost use Rattle.machine.specs.Tables.{lent_tables};
ghost use Rattle.steps.specs.Events.{blocked_for, totals_after, counted_by, own_only, limit_falls, first_for, turns_for, states_of, context_of};
ghost use Rattle.account.specs.Account.{only_counts};

use machine::constants::{
    ALLOWED_PADDING_PACKETS, FIRST_STATE, MACHINE_WORDS, MAX_BLOCKING_FRAC, MAX_PADDING_FRAC,
    NUM_STATES,
};
use machine::event::{
    BLOCKING_BEGIN, BLOCKING_END, NORMAL_SENT, PADDING_SENT, TIMER_BEGIN_KIND, TIMER_END_KIND,
};
use machine::state::{state_rows, word};
use machine::tables::Tables;
use steps::{Context, Framework, MachineRuntime, Totals};

// ---- the counts

// How long the ongoing blocking has been on.
#[tactic(auto, unfolding(steps::specs::Events::blocked_for))]
pub fn blocked_for(current_time: u64, t: Totals) -> u64
    ensures { result ≡ blocked_for current_time t }
{
    if t.blocking_active == 0 {
        0
    } else {
        numbers::time::saturating_duration_since(current_time, t.blocking_started)
    }
}

// What an event makes of the framework's own counts. A begin while blocking is on does not move the
// start, and an end while it is off adds nothing.
#[tactic(auto, unfolding(steps::specs::Events::totals_after))]
pub fn totals_after(kind: u64, current_time: u64, t: Totals) -> Totals
    ensures { result ≡ totals_after kind current_time t }
{
    let mut u = t;
    match kind {
        NORMAL_SENT => u.normal_sent_packets = numbers::saturating_add(t.normal_sent_packets, 1),
        PADDING_SENT => u.padding_sent_packets = numbers::saturating_add(t.padding_sent_packets, 1),
        BLOCKING_BEGIN if t.blocking_active == 0 => {
            u.blocking_started = current_time;
            u.blocking_active = 1;
        }
        BLOCKING_END if t.blocking_active != 0 => {
            let blocked = blocked_for(current_time, t);
            u.blocking_duration = numbers::saturating_add(t.blocking_duration, blocked);
            u.blocking_active = 0;
        }
        _ => {}
    }
    u
}

// A machine's own counts, just before its transition; `blocked` is how long the blocking that ends
// was on.
#[tactic(auto, unfolding(steps::specs::Events::counts_after))]
pub fn counted_by(kind: u64, blocked: u64, r: MachineRuntime) -> MachineRuntime
    ensures { result ≡ counted_by kind blocked r }
{
    let mut q = r;
    match kind {
        NORMAL_SENT => q.counts.normal_sent = numbers::saturating_add(r.counts.normal_sent, 1),
        PADDING_SENT => q.counts.padding_sent = numbers::saturating_add(r.counts.padding_sent, 1),
        BLOCKING_END => {
            q.counts.blocking_duration = numbers::saturating_add(
                r.counts.blocking_duration,
                blocked,
            )
        }
        _ => {}
    }
    q
}

// ---- whose turn it is

// PaddingSent, TimerBegin and TimerEnd go to their own machine alone.
fn own_only(kind: u64) -> bool
    ensures { result ≡ own_only kind }
{
    matches!(kind, PADDING_SENT | TIMER_BEGIN_KIND | TIMER_END_KIND)
}

// The first machine that hears an event.
pub fn first_for(kind: u64, machine: u64) -> u64
    ensures { result ≡ first_for kind machine }
{
    if own_only(kind) { machine } else { 0 }
}

// The machine after the last one that hears it; none does where its own machine is unknown.
pub fn end_for(kind: u64, machine: u64, count: u64) -> u64
    requires { count ≤ 16 }
    ensures is { result ≡ first_for kind machine + turns_for kind machine count }
    ensures within { (result ≤ first_for kind machine + 16) × (first_for kind machine < result → result ≤ 16) }
{
    if !own_only(kind) {
        count
    } else if machine < count {
        machine + 1
    } else {
        machine
    }
}

// The state limit falls at a machine's own PaddingSent, BlockingBegin and TimerBegin.
pub fn limit_falls(kind: u64, machine: u64, m: u64) -> bool
    ensures { result ≡ limit_falls kind machine m }
{
    m == machine && matches!(kind, PADDING_SENT | BLOCKING_BEGIN | TIMER_BEGIN_KIND)
}

// ---- what a machine's transition reads

// A machine's own part of the state table.
pub fn states_of<'a>(t: &Tables<'a>, m: usize) -> &'a [u64]
    requires { m < machine_max }
    ensures { result.now ≡ states_of (lent_tables t.now) m }
{
    let at = m * MACHINE_WORDS;
    state_rows(
        t.states,
        word(t.machines, at + FIRST_STATE),
        word(t.machines, at + NUM_STATES),
    )
}

// Whether a turn changes the machine's counts alone: no next state was chosen, and the event is none
// at which its limit falls. Then nothing else of the machine needs to be passed on and stored.
#[tactic(auto, unfolding(crate::specs::Account::only_counts))]
pub fn only_counts(falls: bool, chosen: Option<u64>) -> bool
    ensures { result ≡ only_counts falls chosen }
{
    !falls && chosen.is_none()
}

// Of the machine's row, and of the framework's own numbers.
pub fn context_of(machines: &[u64], m: usize, fw: &Framework) -> Context
    requires { m < machine_max }
    ensures { result ≡ context_of machines.now m fw.now.current_time fw.now.fixed fw.now.totals }
{
    let at = m * MACHINE_WORDS;
    let Framework { fixed, totals, .. } = *fw;
    Context {
        machine: m as u64,
        allowed_padding_packets: word(machines, at + ALLOWED_PADDING_PACKETS),
        machine_padding_bits: word(machines, at + MAX_PADDING_FRAC),
        machine_blocking_bits: word(machines, at + MAX_BLOCKING_FRAC),
        current_time: fw.current_time,
        max_padding_frac: fixed.max_padding_frac,
        max_blocking_frac: fixed.max_blocking_frac,
        framework_start: fixed.framework_start,
        normal_sent_packets: totals.normal_sent_packets,
        padding_sent_packets: totals.padding_sent_packets,
        blocking_duration: totals.blocking_duration,
        blocking_started: totals.blocking_started,
        blocking_active: totals.blocking_active,
    }
}
