// What an answer differs in from the recorded one, or from what a refused call must leave. A refusal is a
// number here: it is a word of the recorded answers.
ghost use Rattle.std.specs.Prelude.{◌≤◌};

use super::answer::{at_most_max, difference, words};
use super::tally::Difference;
use corpus::{ANSWER, INPUT, OUTPUT_WORDS, OWN_WORDS, ROWS_AT, STATE_MOST};
use machine::constants::{
    ACTION, FIRST_STATE, MACHINE_MAX, MACHINE_WORDS, ROW_WORDS, STATE_END, STATE_WORDS,
};
use machine::tables::Tables;
use steps::{Answer, Framework, MachineRuntime, Opened};

// What the output holds before a call.
pub const MARK: u64 = 0x5a5a_5a5a_5a5a_5a5a;

// The machines that a framework has.
fn used(fw: &Framework) -> &[MachineRuntime] {
    &fw.runtime[..at_most_max(fw.machines)]
}

// Whether the ended number of a framework is that of its machines in STATE_END, and all_machines_ended
// says whether these are all.
fn ended_as_it_is(fw: &Framework) -> bool {
    let machines = used(fw);
    let ended = machines
        .iter()
        .filter(|r| r.current_state == STATE_END)
        .count();
    fw.ended == ended as u64 && framework::all_machines_ended(fw) == (ended == machines.len())
}

// Whether the output from a place on is as it was.
fn untouched(out: &[u64; OUTPUT_WORDS], from: usize) -> bool
    requires { from ≤ OUTPUT_WORDS }
{
    out[from..].iter().all(|w| *w == MARK)
}

// Whether the state in which a machine starts has an action.
fn starts_with_action(machine: &[u64], states: &[u64]) -> bool {
    let first = stream::word(machine, FIRST_STATE);
    first >= INPUT as u64 || stream::word(states, STATE_WORDS * first as usize + ACTION) != 0
}

// Whether the start states without an action have limit 0.
fn start_limits(fw: &Framework, tables: Tables) -> bool {
    used(fw)
        .iter()
        .zip(tables.machines.chunks_exact(MACHINE_WORDS))
        .all(|(r, machine)| r.state_limit == 0 || starts_with_action(machine, tables.states))
}

// What must hold, or the call differs in this.
fn must(holds: bool, difference: Difference) -> Result<(), Difference> {
    if holds { Ok(()) } else { Err(difference) }
}

fn same_words(ours: &[u64; ANSWER], theirs: &[u64; ANSWER]) -> Result<(), Difference> {
    match difference(ours, theirs) {
        None => Ok(()),
        Some(place) => Err(Difference::Word(place)),
    }
}

// Of an answer, beside the recorded one.
fn recorded(
    a: &Answer,
    rows: &[u64; OUTPUT_WORDS],
    theirs: &[u64; ANSWER],
) -> Result<(), Difference> {
    let fw = &a.framework;
    same_words(&words(a, rows, at_most_max(fw.machines)), theirs)?;
    must(ended_as_it_is(fw), Difference::Ended)
}

// An opening's answer as that of a call without actions.
fn as_answer(o: &Opened) -> Answer {
    Answer {
        refusal: o.refusal,
        actions: 0,
        chance_used: o.chance_used,
        value_used: o.value_used,
        framework: o.framework,
    }
}

pub fn opening(o: &Opened, theirs: &[u64; ANSWER], tables: Tables) -> Result<(), Difference> {
    recorded(&as_answer(o), &[0u64; OUTPUT_WORDS], theirs)?;
    if o.refusal != 0 {
        return refused_opening(o.refusal, o);
    }
    must(start_limits(&o.framework, tables), Difference::Limit)
}

// Of a call on `before`, whose output was all marks.
pub fn call(
    before: &Framework,
    a: &Answer,
    out: &[u64; OUTPUT_WORDS],
    theirs: &[u64; ANSWER],
) -> Result<(), Difference> {
    recorded(a, out, theirs)?;
    if a.refusal != 0 {
        return refused_call(a.refusal, before, a, out);
    }
    let rows = ROW_WORDS * at_most_max(a.actions);
    must(untouched(out, rows), Difference::Output)
}

// Of a call that must be refused so: nothing is drawn, and the framework is as it was in all it
// holds, the rows of unused machines too.
pub fn refused_call(
    refusal: u64,
    before: &Framework,
    a: &Answer,
    out: &[u64; OUTPUT_WORDS],
) -> Result<(), Difference> {
    let theirs = Answer {
        refusal,
        actions: 0,
        chance_used: 0,
        value_used: 0,
        framework: *before,
    };
    must(a.framework.ended == before.ended, Difference::Ended)?;
    must(untouched(out, 0), Difference::Output)?;
    same_words(
        &words(a, out, MACHINE_MAX),
        &words(&theirs, out, MACHINE_MAX),
    )
}

// An answer whose words are but its refusal and a state of so many zeros.
fn nothing_but(refusal: u64, state: usize) -> [u64; ANSWER] {
    let mut words = [0u64; ANSWER];
    words[0] = refusal;
    words[ROWS_AT] = state as u64;
    words
}

// Of an opening that must be refused so: its framework is all zero.
pub fn refused_opening(refusal: u64, o: &Opened) -> Result<(), Difference> {
    must(o.framework.ended == 0, Difference::Ended)?;
    let ours = words(&as_answer(o), &[0u64; OUTPUT_WORDS], MACHINE_MAX);
    same_words(&ours, &nothing_but(refusal, STATE_MOST))
}

// Of an input that is refused before its opening.
pub fn refused_input(refusal: u64, theirs: &[u64; ANSWER]) -> Result<(), Difference> {
    same_words(&nothing_but(refusal, OWN_WORDS), theirs)
}
