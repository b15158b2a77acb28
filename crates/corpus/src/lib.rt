// The recorded corpus on standard input, little-endian words. Its format is in
// reference/corpus/README.md.
#![tactic(auto)]

ghost use Rattle.std.specs.Prelude.{◌≤◌, length, IfOk, MatchOption};

use machine::constants::{MACHINE_MAX, ROW_WORDS};

// The words of the longest input.
pub const INPUT: usize = 8192;

// The one kind of case there is, a number as the corpus has it: an input of linkrun.
const KIND: u64 = 1;

// The words of an output with a row for each machine.
pub const OUTPUT_WORDS: usize = MACHINE_MAX * ROW_WORDS;

// An answer: refusal, number of actions, chance and value draws, the actions' rows, number of the
// state's words, the state's words. So many stand before the rows:
pub const ROWS_AT: usize = 4;

// The words of a framework's state but its machines', and of a machine's.
pub const OWN_WORDS: usize = 11;

pub const RUNTIME_WORDS: usize = 9;

// The most words of a state, where the state of the longest answer begins, and that answer's words.
pub const STATE_MOST: usize = OWN_WORDS + RUNTIME_WORDS * MACHINE_MAX;

pub const STATE_LAST: usize = ROWS_AT + OUTPUT_WORDS;

pub const ANSWER: usize = STATE_LAST + 1 + STATE_MOST;

// The corpus is cut, or of a kind or a size that is not known here.
#[derive(Clone, Copy)]
pub struct Broken;

// Fills out with the next words.
pub fn read_words(out: &mut [u64]) -> Result<(), Broken>
    requires { length out.old ≤ INPUT }
{
    let n = out.len();
    let end = 8 * n;
    let mut bytes = io::large_buffer();
    if io::read_full(0, &mut bytes[..end]) < end {
        return Err(Broken);
    }
    text::put_words(&bytes, n, out);
    Ok(())
}

fn read_word() -> Result<u64, Broken> {
    let mut word = [0u64; 1];
    read_words(&mut word)?;
    Ok(word[0])
}

// Reads the words of a case's input of this kind, and answers how many they are.
fn read_input_of(kind: u64, words: &mut [u64]) -> Result<usize, Broken>
    requires { INPUT ≤ length words.old }
    ensures { IfOk result (λ count. count ≤ INPUT) }
{
    let count = read_word()?;
    if kind != KIND || count > INPUT as u64 {
        return Err(Broken);
    }
    let count = count as usize;
    read_words(&mut words[..count])?;
    Ok(count)
}

// Reads the next case's input to the start of words, and answers how many words it has. Nothing is
// behind the last case.
pub fn read_input(words: &mut [u64]) -> Option<Result<usize, Broken>>
    requires { INPUT ≤ length words.old }
    ensures { MatchOption result (Unit {0}) (λ input. IfOk input (λ count. count ≤ INPUT)) }
{
    let kind = read_word().ok()?;
    Some(read_input_of(kind, words))
}

// Reads a call's answer to the start of out, which then has at most that many words.
pub fn read_answer(out: &mut [u64; ANSWER]) -> Result<(), Broken> {
    read_words(&mut out[..ROWS_AT])?;
    let actions = out[1];
    if actions > MACHINE_MAX as u64 {
        return Err(Broken);
    }
    let state = ROWS_AT + ROW_WORDS * actions as usize;
    read_words(&mut out[ROWS_AT..state + 1])?;
    let count = out[state];
    if count > STATE_MOST as u64 {
        return Err(Broken);
    }
    let first = state + 1;
    read_words(&mut out[first..first + count as usize])
}
