// The calls of the printed run, each rendered into a lent line buffer.
#![tactic(auto)]

ghost use Rattle.std.specs.Prelude.{◌≡◌, ◌++◌, ◌+◌, ◌*◌, ◌≤◌, min, length, drop};
ghost use Rattle.text.specs.Words.{values as values_of};
ghost use Rattle.stream.specs.Stream.{next_call, value_words};
ghost use Rattle.run.specs.Run.{opened_of, started, printed, stands_after};

use machine::constants::{MACHINE_MAX, ROW_WORDS};
use steps::Framework;
use stream::Input;

mod lent; // what a run is lent

pub use lent::Lent;

// The words of an output with a row for each machine.
const OUTPUT_WORDS: usize = MACHINE_MAX * ROW_WORDS;

// Where a run stands: the framework, the place of the next call, and the draws taken of each tape.
#[derive(Clone, Copy)]
pub struct Standing {
    pub framework: Framework,
    pub next: usize,
    pub chance: usize,
    pub value: usize,
}

// A call that ran: where the run stands after it, and how many bytes it prints.
#[derive(Clone, Copy)]
pub struct Rendered {
    pub stands: Standing,
    pub bytes: usize,
}

// The opening: its refusal or 0, and where the run stands after it.
// a number beside a value: C's `Opened` answers both, and a framework on refusal too
#[derive(Clone, Copy)]
pub struct Started {
    pub refusal: u64,
    pub stands: Standing,
}

// Where a tape of so many draws goes on.
fn further(at: usize, used: u64, len: usize) -> usize
    ensures is { result ≡ min (at + used) len }
    ensures within { result ≤ len }
{
    at.saturating_add(used as usize).min(len)
}

// Opens the framework of an accepted input.
#[tactic(auto, unfolding(crate::specs::Run::started, crate::specs::Run::opened_of))]
pub fn start(input: &Input, values: &[f64]) -> Started
    requires { values.now ≡ values_of (value_words input.now.words.now) }
    ensures is { result ≡ started input.now.words.now }
    ensures within { result.stands.value ≤ length values.now }
{
    let words = input.words;
    let o = framework::opening(
        numbers::f64_of_word(stream::word(words, 0)),
        numbers::f64_of_word(stream::word(words, 1)),
        stream::word(words, 2),
        &input.tables(),
        values,
    );
    Started {
        refusal: o.refusal,
        stands: Standing {
            framework: o.framework,
            next: input.first_call(),
            chance: 0,
            value: further(0, o.value_used, values.len()),
        },
    }
}

// Runs the call that comes next, as call i, and puts what it prints at the start of line.
#[tactic(auto, using(crate::proofs::Called::rows_few))]
pub fn one_call(lent: &Lent, i: u64, s: Standing, line: &mut [u8]) -> Rendered
    requires next { next_call lent.now.input.words.now s.next ≤ length lent.now.input.words.now }
    requires tapes { (s.chance ≤ length lent.now.chances.now) × (s.value ≤ length lent.now.values.now) }
    requires room { 671 ≤ length line.old }
    ensures stands { result.stands ≡ stands_after lent.now.input.words.now s }
    ensures text { line.new ≡ printed lent.now.input.words.now i s ++ drop result.bytes line.old }
    ensures size { (result.bytes ≡ length (printed lent.now.input.words.now i s)) × (result.bytes ≤ 671)
        × (result.stands.chance ≤ length lent.now.chances.now) × (result.stands.value ≤ length lent.now.values.now) }
{
    let input = lent.input;
    let call = stream::call_at(input.words, s.next);
    let mut rows = [0u64; OUTPUT_WORDS];
    let a = framework::batch(
        &s.framework,
        &input.tables(),
        call.time,
        stream::events_at(input.words, s.next),
        &lent.chances[s.chance..],
        &lent.values[s.value..],
        &mut rows,
    );
    let bytes = text::call_text(line, i, a.refusal, a.actions as usize, &rows);
    let stands = Standing {
        framework: a.framework,
        next: call.next,
        chance: further(s.chance, a.chance_used, lent.chances.len()),
        value: further(s.value, a.value_used, lent.values.len()),
    };
    Rendered { stands, bytes }
}
