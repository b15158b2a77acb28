// framework.rs: whether the limits let a state's action be scheduled (below_action_limits,
// below_limit_blocking, below_limit_padding).
#![tactic(auto)]

ghost use Rattle.std.specs.Prelude.{◌≡◌};
ghost use Rattle.steps.specs.Limits.{replace_of, below_fraction, below_limit_padding, with_ongoing, blocking_reached, own_reached, all_reached, below_limit_blocking, below_action_limits};

use machine::constants::{ACTION, BLOCK_OUTGOING, FLAGS, NO_ACTION, SEND_PADDING, UPDATE_TIMER};
use machine::state::word;
use numbers::time::saturating_duration_since;
use steps::{Context, MachineRuntime};

// ---- padding

// One fraction, of p padding beside n normal packets; `rest` is what holds where it sets no limit
// or is not reached.
#[tactic(auto, unfolding(steps::specs::Limits::below_fraction))]
fn below_fraction(f: f64, p: u64, n: u64, rest: bool) -> bool
    ensures { result ≡ below_fraction f p n rest }
{
    if f > 0.0 {
        let total = numbers::saturating_add(n, p);
        if total == 0 {
            return true;
        }
        if numbers::fraction_reached(p, total, f) {
            return false;
        }
    }
    rest
}

#[tactic(auto, unfolding(steps::specs::Limits::below_limit_padding))]
fn below_limit_padding(c: &Context, r: &MachineRuntime) -> bool
    ensures { result ≡ below_limit_padding c.now r.now }
{
    let left = r.state_limit > 0;
    // the allowance comes before both fractions
    if r.counts.padding_sent < c.allowed_padding_packets {
        return left;
    }
    let all = below_fraction(
        c.max_padding_frac,
        c.padding_sent_packets,
        c.normal_sent_packets,
        left,
    );
    below_fraction(
        numbers::f64_of_word(c.machine_padding_bits),
        r.counts.padding_sent,
        r.counts.normal_sent,
        all,
    )
}

// ---- blocking

// Blocked time takes in the ongoing part.
fn with_ongoing(c: &Context, blocked: u64) -> u64
    ensures { result ≡ with_ongoing c.now blocked }
{
    if c.blocking_active == 0 {
        return blocked;
    }
    numbers::saturating_add(
        blocked,
        saturating_duration_since(c.current_time, c.blocking_started),
    )
}

// A fraction that is not above 0 sets no limit.
fn blocking_reached(f: f64, blocked: u64, since: u64) -> bool
    ensures { result ≡ blocking_reached f blocked since }
{
    f > 0.0 && numbers::fraction_reached(blocked, since, f)
}

// The machine's fraction of the time since its start.
fn own_reached(c: &Context, r: &MachineRuntime) -> bool
    ensures { result ≡ own_reached c.now r.now }
{
    let blocked = with_ongoing(c, r.counts.blocking_duration);
    let running = saturating_duration_since(c.current_time, r.machine_start);
    let most = numbers::f64_of_word(c.machine_blocking_bits);
    blocking_reached(most, blocked, running)
}

// The framework's.
fn all_reached(c: &Context) -> bool
    ensures { result ≡ all_reached c.now }
{
    let blocked = with_ongoing(c, c.blocking_duration);
    let running = saturating_duration_since(c.current_time, c.framework_start);
    blocking_reached(c.max_blocking_frac, blocked, running)
}

#[tactic(auto, unfolding(steps::specs::Limits::below_limit_blocking))]
fn below_limit_blocking(c: &Context, r: &MachineRuntime, replace: bool) -> bool
    ensures { result ≡ below_limit_blocking c.now r.now replace }
{
    let left = r.state_limit > 0;
    // replacing ongoing blocking, and the allowance, come before both fractions
    if replace && c.blocking_active != 0 {
        return left;
    }
    if with_ongoing(c, r.counts.blocking_duration) < r.allowed_blocked_microsec {
        return left;
    }
    if own_reached(c, r) || all_reached(c) {
        return false;
    }
    left
}

// ---- of the row of the machine's state

fn replace_of(row: &[u64]) -> bool
    ensures { result ≡ replace_of row.now }
{
    word(row, FLAGS) / 2 % 2 == 1
}

#[tactic(auto, unfolding(steps::specs::Limits::below_action_limits))]
pub fn below_action_limits(c: &Context, r: &MachineRuntime, row: &[u64]) -> bool
    ensures { result ≡ below_action_limits c.now r.now row.now }
{
    match word(row, ACTION) {
        NO_ACTION => false,
        BLOCK_OUTGOING => below_limit_blocking(c, r, replace_of(row)),
        SEND_PADDING => below_limit_padding(c, r),
        UPDATE_TIMER => r.state_limit > 0,
        _ => true,
    }
}
