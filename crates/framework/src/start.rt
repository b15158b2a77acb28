// The machines of an opening: each begins in state 0, with the limit that its start state draws.
ghost use Rattle.refusal.specs.Refusal.{told};
ghost use Rattle.std.specs.Prelude.{◌≡◌, [], ◌≤◌, ◌<◌};
ghost use Rattle.refusal.specs.Refusal.{refusal_of};
ghost use Rattle.machine.specs.Constants.{machine_max};
ghost use Rattle.machine.specs.Tables.{lent_tables};
ghost use Rattle.steps.specs.Framework.{new_framework, new_runtime, start_limit, open_machine, rows_in, open_run, opened_by, open_refusal, opening};
ghost use Rattle.steps.specs.Words.{opened_in_words, opening_words};
ghost use Rattle.machine.specs.Source.{tapes};
ghost use Rattle.framework.specs.Answers as Answers;

use account::states_of;
use machine::constants::{ACTION, ALLOWED_BLOCKED_MICROSEC, MACHINE_WORDS, NO_ACTION};
use machine::source::{Draw, Draws, Place, Tapes, Words};
use machine::state::{state_row, word};
use machine::tables::Tables;
use refusal::Refusal;
use samples::action::sample_limit;
use steps::{Counters, Counts, Fixed, Framework, MachineRuntime, Opened, Totals};

// A machine in state 0, which has counted nothing.
fn new_runtime(time: u64, allowed_blocked_microsec: u64, limit: u64) -> MachineRuntime
    ensures { result ≡ new_runtime time allowed_blocked_microsec limit }
{
    MachineRuntime {
        current_state: 0,
        state_limit: limit,
        counts: Counts {
            padding_sent: 0,
            normal_sent: 0,
            blocking_duration: 0,
        },
        machine_start: time,
        allowed_blocked_microsec,
        counters: Counters {
            counter_a: 0,
            counter_b: 0,
        },
    }
}

// A framework before its machines are in.
fn new_framework(
    machines: u64,
    max_padding_frac: f64,
    max_blocking_frac: f64,
    time: u64,
) -> Framework
    ensures { result ≡ new_framework machines max_padding_frac max_blocking_frac time }
{
    Framework {
        machines,
        ended: 0,
        current_time: time,
        signal_pending: 0,
        fixed: Fixed {
            max_padding_frac,
            max_blocking_frac,
            framework_start: time,
        },
        totals: Totals {
            normal_sent_packets: 0,
            padding_sent_packets: 0,
            blocking_duration: 0,
            blocking_started: time,
            blocking_active: 0,
        },
        runtime: [new_runtime(0, 0, 0); 16],
    }
}

// The answer of an opening: where it was refused, a framework with no machines, all zero.
pub fn opened(answer: Result<Draw<Framework>, Refusal>) -> Opened
    ensures { result ≡ Answers.opened answer }
{
    match answer {
        Ok(d) => Opened {
            refusal: 0,
            chance_used: d.at.chance_at as u64,
            value_used: d.at.value_at as u64,
            framework: d.value,
        },
        Err(r) => Opened {
            refusal: r.into(),
            chance_used: 0,
            value_used: 0,
            framework: new_framework(0, 0.0, 0.0, 0),
        },
    }
}

// The start state's limit; without an action it stays 0.
#[tactic(auto, unfolding(steps::specs::Framework::start_limit))]
fn start_limit<D: Draws>(row: &[u64], draws: &D, at: Place) -> Result<Draw<u64>, Refusal>
    ensures { told result ≡ start_limit row.now (D.source draws.now).values at }
{
    if word(row, ACTION) == NO_ACTION {
        return Ok(Draw { value: 0, at });
    }
    sample_limit(row, draws, at)
}

// Machine m as it opens at a time.
#[tactic(auto, unfolding(steps::specs::Framework::open_machine))]
fn open_machine<D: Draws>(
    t: &Tables,
    draws: &D,
    m: usize,
    time: u64,
    at: Place,
) -> Result<Draw<MachineRuntime>, Refusal>
    requires { m < machine_max }
    ensures { told result ≡ open_machine (lent_tables t.now) (D.source draws.now).values m time at }
{
    let row = state_row(states_of(t, m), 0);
    let limit = start_limit(row, draws, at)?;
    let allowed = word(t.machines, m * MACHINE_WORDS + ALLOWED_BLOCKED_MICROSEC);
    Ok(Draw {
        value: new_runtime(time, allowed, limit.value),
        at: limit.at,
    })
}

// The machines in order.
pub fn open_machines<D: Draws>(
    max_padding_frac: f64,
    max_blocking_frac: f64,
    time: u64,
    t: &Tables,
    draws: &D,
) -> Result<Draw<Framework>, Refusal>
    requires { rows_in t.now.machines.now ≤ machine_max }
    ensures { Answers.opened result ≡ opened_by (open_run (lent_tables t.now) max_padding_frac max_blocking_frac time (D.source draws.now)) }
{
    let count = t.machines.len() / MACHINE_WORDS;
    let mut f = new_framework(count as u64, max_padding_frac, max_blocking_frac, time);
    let mut at = Place {
        chance_at: 0,
        value_at: 0,
    };
    for m in 0..count {
        let opened = open_machine(t, draws, m, time, at)?;
        f.runtime[m] = opened.value;
        at = opened.at;
    }
    Ok(Draw { value: f, at })
}

// What an opening refuses before it draws: the fractions, then the tables.
#[tactic(auto, unfolding(steps::specs::Framework::or_else))]
fn check_opening(max_padding_frac: f64, max_blocking_frac: f64, t: &Tables) -> Result<(), Refusal>
    ensures { refusal_of result ≡ open_refusal (lent_tables t.now) max_padding_frac max_blocking_frac }
{
    tables::check_fractions(max_padding_frac, max_blocking_frac)?;
    tables::check_tables(t)
}

// An opening that draws from two tapes.
pub fn open(
    max_padding_frac: f64,
    max_blocking_frac: f64,
    time: u64,
    t: &Tables,
    values: &[f64],
) -> Result<Draw<Framework>, Refusal>
    ensures { Answers.opened result ≡ opening (lent_tables t.now) max_padding_frac max_blocking_frac time (tapes [] values.now) }
{
    check_opening(max_padding_frac, max_blocking_frac, t)?;
    let chances: [f32; 0] = [];
    let draws = Tapes {
        chances: &chances,
        values,
    };
    open_machines(max_padding_frac, max_blocking_frac, time, t, &draws)
}

// The same from raw words: 24 after the table checks.
pub fn open_words(
    max_padding_frac: f64,
    max_blocking_frac: f64,
    time: u64,
    t: &Tables,
    words: &[u64],
) -> Result<Draw<Framework>, Refusal>
    ensures { opened_in_words (Answers.opened result) ≡ opening_words (lent_tables t.now) max_padding_frac max_blocking_frac time words.now }
{
    check_opening(max_padding_frac, max_blocking_frac, t)?;
    if outside::draws_outside(t) {
        return Err(Refusal::DrawnOutside);
    }
    let draws = Words { words };
    open_machines(max_padding_frac, max_blocking_frac, time, t, &draws)
}
