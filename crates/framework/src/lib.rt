// framework.rs, the outer half: the opening, a batch of events with its refusals and its output, each from two tapes and from
// raw words, and all_machines_ended.
#![tactic(auto)]

ghost use Rattle.std.specs.Prelude.{◌≡◌, true, cond, [], ◌*◌, ◌/◌, ◌≤◌, length, ltb, Ok};
ghost use Rattle.refusal.specs.Refusal.{refusal_of};
ghost use Rattle.machine.specs.Constants.{row_words};
ghost use Rattle.machine.specs.Source.{tapes};
ghost use Rattle.machine.specs.Tables.{lent_tables};
ghost use Rattle.tables.specs.Machine.{tables_refusal};
ghost use Rattle.steps.specs.Events.{num_machines, and_then, each, event_turn, signals};
ghost use Rattle.steps.specs.Framework as Spec;
ghost use Rattle.steps.specs.Words.{opened_in_words, opening_words, on_words, batch_on, batch_words};
ghost use Rattle.events.specs.Run.{left_as};
ghost use Rattle.framework.specs.Answers as Answers;

use events::{begin, process_events};
use machine::constants::{MACHINE_MAX, MACHINE_WORDS, ROW_WORDS};
use machine::source::{Draws, Tapes, Words};
use machine::tables::Tables;
use refusal::Refusal;
use signals::process_signals;
use steps::{Answer, AnswerWords, Framework, Opened, OpenedWords, Run};

mod checks; // refusals 18 and 19
mod output; // the output rows
mod start; // the machines of an opening

// ---- the opening

// Framework::new.
pub fn opening(
    max_padding_frac: f64,
    max_blocking_frac: f64,
    time: u64,
    t: &Tables,
    values: &[f64],
) -> Opened
    ensures { result ≡ Spec.opening (lent_tables t.now) max_padding_frac max_blocking_frac time (tapes [] values.now) }
{
    start::opened(start::open(max_padding_frac, max_blocking_frac, time, t, values))
}

// The same from raw words.
pub fn opening_words(
    max_padding_frac: f64,
    max_blocking_frac: f64,
    time: u64,
    t: &Tables,
    words: &[u64],
) -> OpenedWords
    ensures { result ≡ opening_words (lent_tables t.now) max_padding_frac max_blocking_frac time words.now }
{
    let o = start::opened(start::open_words(max_padding_frac, max_blocking_frac, time, t, words));
    OpenedWords {
        refusal: o.refusal,
        words_used: o.value_used,
        framework: o.framework,
    }
}

// ---- a batch

// What a batch refuses beside its tables, where these pass: 18, 19 and 20; `room` is the output's length.
fn check_batch(fw: &Framework, t: &Tables, events: &[u64], room: usize) -> Result<(), Refusal>
    requires { Spec.rows_in t.now.machines.now ≤ 16 }
    ensures { refusal_of result ≡ cond (Spec.fits_tables (lent_tables t.now) fw.now)
        (cond (Spec.events_fit events.now) (cond (ltb room (row_words * Spec.rows_in t.now.machines.now)) 20 0) 19) 18 }
{
    if !checks::fits_tables(fw, t) {
        return Err(Refusal::ForeignFramework);
    }
    if !checks::events_fit(events) {
        return Err(Refusal::UnknownEvents);
    }
    if room < ROW_WORDS * (t.machines.len() / MACHINE_WORDS) {
        return Err(Refusal::NoRoom);
    }
    Ok(())
}

// The events in order, then the signals.
fn trigger_events<D: Draws>(
    x: &mut Run,
    t: &Tables,
    events: &[u64],
    draws: &D,
) -> Result<(), Refusal>
    requires { Spec.kinds_fit events.now (length events.now / 2) ≡ true }
    ensures is { let es = events.now in
        left_as result x.new ≡ and_then (each (event_turn (lent_tables t.now) (D.source draws.now) es) (length es / 2) 0 x.old)
        (signals (lent_tables t.now) (D.source draws.now)) }
    ensures keeps { x.new.framework.machines ≡ x.old.framework.machines }
{
    process_events(x, t, events, draws)?;
    process_signals(x, t, draws)
}

// An accepted batch: the rows are written, the ended machines counted, and a signal that is still
// pending waits for the next. The answer is how many rows.
fn accepted(x: &mut Run, out: &mut [u64]) -> u64
    requires { row_words * num_machines x.old.framework ≤ length out.old }
    ensures { let B = Spec.accepted x.old out.old in
        (Answers.answered x.old.framework x.new (Ok result) ≡ B.answer) × (out.new ≡ B.out) }
{
    let count = numbers::smaller(x.framework.machines, MACHINE_MAX as u64) as usize;
    let actions = output::put_rows(&x.actions, count, out);
    x.framework.ended = checks::ended_in(&x.framework, count);
    x.framework.signal_pending = x.shared.signal_pending;
    actions
}

// A batch whose tables pass. The run is lent as it begins: a framework that is passed on is copied.
fn run_passed<D: Draws>(
    x: &mut Run,
    fw: &Framework,
    t: &Tables,
    events: &[u64],
    draws: &D,
    out: &mut [u64],
) -> Result<u64, Refusal>
    requires passed { tables_refusal t.now.machines.now t.now.states.now t.now.transitions.now ≡ 0 }
    requires begun { x.old ≡ Spec.begin fw.now x.old.framework.current_time }
    ensures { let B = Spec.batch fw.now (lent_tables t.now) x.old.framework.current_time events.now (D.source draws.now) out.old in
        (Answers.answered fw.now x.new result ≡ B.answer) × (out.new ≡ B.out) }
{
    check_batch(fw, t, events, out.len())?;
    trigger_events(x, t, events, draws)?;
    Ok(accepted(x, out))
}

fn run_batch<D: Draws>(
    x: &mut Run,
    fw: &Framework,
    t: &Tables,
    events: &[u64],
    draws: &D,
    out: &mut [u64],
) -> Result<u64, Refusal>
    requires { x.old ≡ Spec.begin fw.now x.old.framework.current_time }
    ensures { let B = Spec.batch fw.now (lent_tables t.now) x.old.framework.current_time events.now (D.source draws.now) out.old in
        (Answers.answered fw.now x.new result ≡ B.answer) × (out.new ≡ B.out) }
{
    tables::check_tables(t)?;
    run_passed(x, fw, t, events, draws, out)
}

// The same from raw words: 24 after the table checks, and before 18.
fn run_words(
    x: &mut Run,
    fw: &Framework,
    t: &Tables,
    events: &[u64],
    words: &[u64],
    out: &mut [u64],
) -> Result<u64, Refusal>
    requires { x.old ≡ Spec.begin fw.now x.old.framework.current_time }
    ensures { let B = batch_on fw.now (lent_tables t.now) x.old.framework.current_time events.now (on_words words.now) out.old in
        (Answers.answered fw.now x.new result ≡ B.answer) × (out.new ≡ B.out) }
{
    tables::check_tables(t)?;
    if outside::draws_outside(t) {
        return Err(Refusal::DrawnOutside);
    }
    run_passed(x, fw, t, events, &Words { words }, out)
}

// The answer of a batch: where it was refused, the framework as it went in and no draws.
fn answered(fw: &Framework, x: &Run, answer: Result<u64, Refusal>) -> Answer
    ensures { result ≡ Answers.answered fw.now x.now answer }
{
    match answer {
        Ok(actions) => Answer {
            refusal: 0,
            actions,
            chance_used: x.shared.place.chance_at as u64,
            value_used: x.shared.place.value_at as u64,
            framework: x.framework,
        },
        Err(r) => Answer {
            refusal: r.into(),
            actions: 0,
            chance_used: 0,
            value_used: 0,
            framework: *fw,
        },
    }
}

// trigger_events: a batch of events at one time, and the actions that it returns as rows of `out`.
pub fn batch_on<D: Draws>(
    fw: &Framework,
    t: &Tables,
    time: u64,
    events: &[u64],
    draws: &D,
    out: &mut [u64],
) -> Answer
    ensures { let B = Spec.batch fw.now (lent_tables t.now) time events.now (D.source draws.now) out.old in
        (result ≡ B.answer) × (out.new ≡ B.out) }
{
    let mut x = begin(fw, time);
    let answer = run_batch(&mut x, fw, t, events, draws, out);
    answered(fw, &x, answer)
}

// A batch on two tapes.
pub fn batch(
    fw: &Framework,
    t: &Tables,
    time: u64,
    events: &[u64],
    chances: &[f32],
    values: &[f64],
    out: &mut [u64],
) -> Answer
    ensures { let B = Spec.batch fw.now (lent_tables t.now) time events.now (tapes chances.now values.now) out.old in
        (result ≡ B.answer) × (out.new ≡ B.out) }
{
    batch_on(fw, t, time, events, &Tapes { chances, values }, out)
}

// A batch from raw words.
pub fn batch_words(
    fw: &Framework,
    t: &Tables,
    time: u64,
    events: &[u64],
    words: &[u64],
    out: &mut [u64],
) -> AnswerWords
    ensures { let B = batch_words fw.now (lent_tables t.now) time events.now words.now out.old in
        (result ≡ B.answer) × (out.new ≡ B.out) }
{
    let mut x = begin(fw, time);
    let answer = run_words(&mut x, fw, t, events, words, out);
    let a = answered(fw, &x, answer);
    AnswerWords {
        refusal: a.refusal,
        actions: a.actions,
        words_used: a.value_used,
        framework: a.framework,
    }
}

// Whether all machines have ended: the ended number is the machine count, one above 16 read as 16.
#[tactic(auto, unfolding(steps::specs::Framework::all_machines_ended))]
pub fn all_machines_ended(fw: &Framework) -> bool
    ensures { result ≡ Spec.all_machines_ended fw.now }
{
    fw.ended == numbers::smaller(fw.machines, 16)
}
