// Runs the recorded answers of the Rust through the library, and says how many agreed: every word
// of each answer and of the framework's state after each call, and besides, on each case, calls
// that no input of linkrun can make (damage.rt). Standard input is the corpus.
#![tactic(auto)]

mod answer;
mod damage;
mod input;
mod judge;
mod tally;

ghost use Rattle.std.specs.Prelude.{◌≤◌, length};

use answer::at_most_max;
use corpus::{ANSWER, Broken, INPUT, OUTPUT_WORDS};
use input::Batch;
use machine::constants::ROW_WORDS;
use machine::source::Tapes;
use steps::{Answer, Framework};
use stream::Input;
use tally::{Difference, Tally};

// More cases than a corpus has.
const CASES: u64 = 1000000;

// The call at which the corpus cannot be read any further.
#[derive(Clone, Copy)]
struct BrokenAt(u64);

// A call of a case, beside its recorded answer.
fn replay_call(tally: &mut Tally, call: u64, batch: &Batch) -> Result<Answer, BrokenAt> {
    let mut theirs = [0u64; ANSWER];
    corpus::read_answer(&mut theirs).map_err(|_| BrokenAt(call))?;
    let mut out = [judge::MARK; OUTPUT_WORDS];
    let room = ROW_WORDS * at_most_max(batch.framework.machines);
    let a = batch.run(&mut out[..room]);
    tally.recorded(call, judge::call(&batch.framework, &a, &out, &theirs));
    Ok(a)
}

// All calls of an input behind its opening.
#[tactic(auto, using(stream::specs::Inside::call_inside), unfolding(stream::specs::Stream::call_at))]
fn replay_calls<'a>(
    tally: &mut Tally,
    input: Input<'a>,
    opened: Framework,
    left: Tapes<'a>,
) -> Result<(), BrokenAt> {
    let words = input.words;
    let mut batch = Batch {
        framework: opened,
        tables: input.tables(),
        time: 0,
        events: &[],
        tapes: left,
    };
    let mut at = input.first_call();
    for i in 0..stream::word(words, 8) {
        let call = stream::call_at(words, at);
        batch.time = call.time;
        batch.events = stream::events_at(words, at);
        let a = replay_call(tally, i + 1, &batch)?;
        batch.framework = a.framework;
        batch.tapes = input::behind(batch.tapes, a.chance_used, a.value_used);
        at = call.next;
    }
    Ok(())
}

// The opening of an input and its calls.
fn replay_run(
    tally: &mut Tally,
    input: Input,
    tapes: Tapes,
    theirs: &[u64; ANSWER],
) -> Result<(), BrokenAt> {
    let tables = input.tables();
    let time = stream::word(input.words, 2);
    let o = input::opening(&input, &tables, time, tapes.values);
    tally.recorded(0, judge::opening(&o, theirs, tables));
    damage::damaged_calls(tally, &input, &o);
    if theirs[0] != 0 {
        return Ok(());
    }
    let left = input::behind(tapes, o.chance_used, o.value_used);
    replay_calls(tally, input, o.framework, left)
}

// An input with its tapes as floats.
#[tactic(auto, using(stream::specs::Inside::tapes_inside))]
fn replay_input(tally: &mut Tally, input: Input, theirs: &[u64; ANSWER]) -> Result<(), BrokenAt>
    requires { length input.words.now ≤ INPUT }
{
    let chance_words = input.chances();
    let value_words = input.values();
    let mut chances = [0.0f32; INPUT];
    let mut values = [0.0f64; INPUT];
    text::put_chances(chance_words, &mut chances);
    text::put_values(value_words, &mut values);
    let tapes = Tapes {
        chances: &chances[..chance_words.len()],
        values: &values[..value_words.len()],
    };
    replay_run(tally, input, tapes, theirs)
}

// The calls that a case has by its input and its opening.
fn call_count(words: &[u64], refusal: u64) -> u64 {
    if refusal != 0 {
        return 1;
    }
    stream::word(words, 8).saturating_add(1)
}

// Reads the number of a case's calls, and the recorded answer to its opening.
fn read_opening(words: &[u64], theirs: &mut [u64; ANSWER]) -> Result<(), Broken> {
    let mut calls = [0u64; 1];
    corpus::read_words(&mut calls)?;
    corpus::read_answer(theirs)?;
    if calls[0] != call_count(words, theirs[0]) {
        return Err(Broken);
    }
    Ok(())
}

// A case, whose input is these words.
fn replay_case(tally: &mut Tally, words: &[u64]) -> Result<(), BrokenAt>
    requires { length words.now ≤ INPUT }
{
    let mut theirs = [0u64; ANSWER];
    read_opening(words, &mut theirs).map_err(|_| BrokenAt(0))?;
    match Input::of(words) {
        Ok(input) => replay_input(tally, input, &theirs),
        Err(refusal) => {
            tally.recorded(0, judge::refused_input(refusal.into(), &theirs));
            Ok(())
        }
    }
}

// The cases, up to the last or one that cannot be read.
fn replay_all(tally: &mut Tally) -> Result<(), BrokenAt> {
    for _ in 0..CASES {
        let mut words = [0u64; INPUT];
        let Some(found) = corpus::read_input(&mut words) else {
            return Ok(());
        };
        tally.next_case();
        let count = found.map_err(|_| BrokenAt(0))?;
        replay_case(tally, &words[..count])?;
    }
    Ok(())
}

fn main() {
    let mut tally = Tally::default();
    if let Err(BrokenAt(call)) = replay_all(&mut tally) {
        tally.recorded(call, Err(Difference::Corpus));
    }
    tally.print();
}
