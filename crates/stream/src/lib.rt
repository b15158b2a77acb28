// The input of the printed run: its check, its parts and its calls.
#![tactic(auto)]

ghost use Rattle.std.specs.Prelude.{◌≡◌, ◌+◌, ◌*◌, ◌-◌, ◌≤◌, ◌<◌, ltb, MatchResult, min, length, get_or, take, drop};
ghost use Rattle.std.specs.List.{list_all};
ghost use Rattle.refusal.specs.Refusal.{refusal_of};
ghost use Rattle.stream.specs.Stream.{
  call_of,
  calls_at,
  check_of,
  chance_words,
  end_at,
  events_of,
  input_refusal,
  layout_of,
  loaded,
  machine_table,
  next_call,
  size_refusal,
  state_table,
  transition_table,
  value_words,
};
ghost use Rattle.stream.specs.Within.{Ordered, places_of, within};

use machine::constants::{MACHINE_WORDS, STATE_WORDS, TRANSITION_WORDS};
use refusal::Refusal;

mod input; // an accepted input

pub use input::Input;
pub use machine::state::word; // word k, or 0 past the end

// The words of the header.
const HEADER_WORDS: usize = 9;

// Where the parts behind the machine table start.
#[derive(Clone, Copy)]
pub struct Layout {
    pub states: usize,
    pub transitions: usize,
    pub chances: usize,
    pub values: usize,
    pub calls: usize,
}

// A call: its time, where its events start, and where the next call does.
#[derive(Clone, Copy)]
pub struct Call {
    pub time: u64,
    pub events: usize,
    pub next: usize,
}

// The place behind so many rows from `at` on, in words that end at `end`: one past the end stands
// for every place beyond it, so no count is too large.
fn after(end: usize, at: usize, rows: u64, width: usize) -> usize
    requires { end < 2305843009213693952 }
    ensures { result ≡ min (at + width * rows) (end + 1) }
{
    at.saturating_add(width.saturating_mul(rows as usize))
        .min(end + 1)
}

// The parts' places, one past the end for those beyond it.
#[tactic(auto, unfolding(crate::specs::Stream::states_at, crate::specs::Stream::transitions_at, crate::specs::Stream::chances_at, crate::specs::Stream::values_at, crate::specs::Stream::calls_at))]
fn places(words: &[u64]) -> Layout
    ensures { result ≡ places_of words.now }
{
    let end = words.len();
    let machines = after(end, 0, 1, HEADER_WORDS);
    let states = after(end, machines, word(words, 3), MACHINE_WORDS);
    let transitions = after(end, states, word(words, 4), STATE_WORDS);
    let chances = after(end, transitions, word(words, 5), TRANSITION_WORDS);
    let values = after(end, chances, word(words, 6), 1);
    let calls = after(end, values, word(words, 7), 1);
    Layout {
        states,
        transitions,
        chances,
        values,
        calls,
    }
}

// The place behind the call at `at`.
fn call_end(words: &[u64], at: usize) -> usize
    requires { at ≤ length words.now + 1 }
    ensures { result ≡ within words.now (next_call words.now at) }
{
    let end = words.len();
    let events = after(end, at, 1, 2);
    after(end, events, word(words, at + 1), 2)
}

// The place behind the last call, where the first is at `first`.
#[tactic(auto, using(crate::proofs::Clip::next_call_lem, crate::proofs::Clip::beyond, crate::proofs::Clip::all_calls), unfolding(crate::specs::Stream::call_at))]
fn calls_end(words: &[u64], first: usize) -> usize
    requires { first ≡ within words.now (calls_at words.now) }
    ensures { result ≡ within words.now (end_at words.now) }
{
    let calls = word(words, 8);
    let mut at = first;
    for _ in 0..calls {
        // Beyond the end nothing comes back inside.
        if words.len() < at {
            return at;
        }
        at = call_end(words, at);
    }
    at
}

// Whether each word is below 2^32.
fn narrow(words: &[u64]) -> bool
    ensures { result ≡ list_all (λ word. ltb word 4294967296) words.now }
{
    words.iter().all(|word| *word < 4294967296)
}

// Refuses words where some are missing or left over, or a chance word is 2^32 or more.
pub fn check(words: &[u64]) -> Result<(), Refusal>
    ensures { refusal_of result ≡ check_of words.now }
{
    let l = places(words);
    let end = calls_end(words, l.calls);
    if end != words.len() {
        return Err(Refusal::BadInput);
    }
    if narrow(between(words, l.chances, l.values)) {
        return Ok(());
    }
    Err(Refusal::BadInput)
}

// Where the parts of accepted words start.
#[tactic(auto, using(crate::proofs::Clip::exact, crate::specs::Inside::accepted, crate::specs::Inside::parts_inside))]
pub fn parts(words: &[u64]) -> Layout
    requires { check_of words.now ≡ 0 }
    ensures is { result ≡ layout_of words.now }
    ensures inside { Ordered result (length words.now) }
{
    places(words)
}

// The words from one place up to another.
fn between(words: &[u64], from: usize, to: usize) -> &[u64]
    requires { (from ≤ to) × (to ≤ length words.now) }
    ensures { result.now ≡ take (to - from) (drop from words.now) }
{
    &words[from..to]
}

// The parts of accepted words, each as the `Input` of these words has it.
// beside `Input`'s methods: public functions, named in docs/MAP.md, for callers that hold checked words
pub fn machine_table(words: &[u64]) -> &[u64]
    requires { check_of words.now ≡ 0 }
    ensures { result.now ≡ machine_table words.now }
{
    Input::accepted(words).machines()
}

pub fn state_table(words: &[u64]) -> &[u64]
    requires { check_of words.now ≡ 0 }
    ensures { result.now ≡ state_table words.now }
{
    Input::accepted(words).states()
}

pub fn transition_table(words: &[u64]) -> &[u64]
    requires { check_of words.now ≡ 0 }
    ensures { result.now ≡ transition_table words.now }
{
    Input::accepted(words).transitions()
}

pub fn chance_words(words: &[u64]) -> &[u64]
    requires { check_of words.now ≡ 0 }
    ensures { result.now ≡ chance_words words.now }
{
    Input::accepted(words).chances()
}

pub fn value_words(words: &[u64]) -> &[u64]
    requires { check_of words.now ≡ 0 }
    ensures { result.now ≡ value_words words.now }
{
    Input::accepted(words).values()
}

// The call at a place that lies inside the words (`call_inside` in specs/Inside.antt).
pub fn call_at(words: &[u64], at: usize) -> Call
    requires { next_call words.now at ≤ length words.now }
    ensures { result ≡ call_of words.now at }
{
    let events = at + 2;
    let count = words[at + 1] as usize;
    Call {
        time: words[at],
        events,
        next: events + 2 * count,
    }
}

// Its event words.
#[tactic(auto, unfolding(crate::specs::Stream::events_of))]
pub fn events_at(words: &[u64], at: usize) -> &[u64]
    requires { next_call words.now at ≤ length words.now }
    ensures { result.now ≡ events_of words.now at }
{
    let call = call_at(words, at);
    between(words, call.events, call.next)
}

// Refuses an input of so many bytes where they are more than 8,192 words or cut the last one.
#[tactic(auto, unfolding(crate::specs::Stream::size_refusal))]
fn check_size(bytes: usize) -> Result<(), Refusal>
    ensures is { refusal_of result ≡ size_refusal bytes }
    ensures told { MatchResult result (λ ok. bytes ≤ 65536) (λ refusal. size_refusal bytes ≡ 21) }
{
    if 65536 < bytes {
        return Err(Refusal::BadInput);
    }
    if bytes % 8 == 0 {
        return Ok(());
    }
    Err(Refusal::BadInput)
}

// The input's words at the start of words, and what the input is refused as. An input whose size is
// refused leaves words as they are.
pub fn load(bytes: &[u8], words: &mut [u64]) -> Result<(), Refusal>
    requires { 8192 ≤ length words.old }
    ensures answer { refusal_of result ≡ input_refusal bytes.now }
    ensures words { words.new ≡ loaded bytes.now words.old }
{
    check_size(bytes.len())?;
    let n = bytes.len() / 8;
    text::put_words(bytes, n, words);
    check(&words[..n])
}
