// The lines of the three kinds.
use cells::WORD_COLUMNS;
use lines::{KIND_COLUMNS, LineKind};
use machine::constants::{MACHINE_WORDS, STATE_WORDS, TRANSITION_WORDS};

// The row kinds: numbers, since a line begins with them.
pub const MACHINE_KIND: u64 = 1;

pub const STATE_KIND: u64 = 2;

pub const TRANSITION_KIND: u64 = 3;

// The bytes of a line of each kind, with its line feed.
pub const MACHINE_LINE: usize = KIND_COLUMNS + WORD_COLUMNS * MACHINE_WORDS + 1;

pub const STATE_LINE: usize = KIND_COLUMNS + WORD_COLUMNS * STATE_WORDS + 1;

pub const TRANSITION_LINE: usize = KIND_COLUMNS + WORD_COLUMNS * TRANSITION_WORDS + 1;

// The lines of each kind.
pub const MACHINE: LineKind = LineKind {
    number: MACHINE_KIND,
    words: MACHINE_WORDS,
    size: MACHINE_LINE,
};

pub const STATE: LineKind = LineKind {
    number: STATE_KIND,
    words: STATE_WORDS,
    size: STATE_LINE,
};

pub const TRANSITION: LineKind = LineKind {
    number: TRANSITION_KIND,
    words: TRANSITION_WORDS,
    size: TRANSITION_LINE,
};
