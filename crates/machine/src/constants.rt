// constants.rs, and the layout of the lent tables. Each number stands in specs/Constants.antt too.

// A pseudo-state: the machine has ended.
pub const STATE_END: u64 = 4294967295;

// A pseudo-state: the machine signals the other machines.
pub const STATE_SIGNAL: u64 = 4294967294;

// The limit of a state whose action has none.
pub const STATE_LIMIT_MAX: u64 = 18446744073709551615;

// The most states that a machine may have.
pub const STATE_MAX: u64 = 100000;

// The kinds of `Event`.
pub const EVENT_NUM: u64 = 13;

// A day in microseconds: the largest timeout and duration.
pub const MAX_SAMPLED_TIMEOUT: u64 = 86400000000;

pub const MAX_SAMPLED_DURATION: u64 = 86400000000;

// The most machines.
pub const MACHINE_MAX: usize = 16;

// Words of a machine row, a state row and a transition row.
pub const MACHINE_WORDS: usize = 6;

pub const STATE_WORDS: usize = 58;

pub const TRANSITION_WORDS: usize = 2;

// Words of an action's row in the output: machine, kind, flags, timer, timeout and duration.
pub const ROW_WORDS: usize = 6;

// The words of an action's row that are looked at.
pub const ROW_MACHINE: usize = 0;

pub const ROW_KIND: usize = 1;

pub const ROW_TIMEOUT: usize = 4;

// The words of a machine row: its padding and blocking budgets, then its own part of the state table.
pub const ALLOWED_PADDING_PACKETS: usize = 0;

pub const MAX_PADDING_FRAC: usize = 1;

pub const ALLOWED_BLOCKED_MICROSEC: usize = 2;

pub const MAX_BLOCKING_FRAC: usize = 3;

pub const FIRST_STATE: usize = 4;

pub const NUM_STATES: usize = 5;

// Where the fields of a state row begin.
pub const ACTION: usize = 0;

pub const FLAGS: usize = 1;

pub const TIMER: usize = 2;

pub const TIMEOUT: usize = 3;

pub const DURATION: usize = 8;

pub const LIMIT: usize = 13;

pub const COUNTER_A: usize = 18;

pub const COUNTER_B: usize = 25;

pub const EVENTS: usize = 32;

// Words of a counter before its distribution: operation and copy.
pub const COUNTER_DIST: usize = 2;

// Kinds of a distribution; the last is drawn outside.
pub const ABSENT: u64 = 0;

pub const UNIFORM: u64 = 1;

pub const OUTSIDE: u64 = 2;

// Codes of an action; the first is none. Numbers, as all codes here: C lends the tables as words, and any word may stand there.
pub const NO_ACTION: u64 = 0;

pub const CANCEL: u64 = 1;

pub const SEND_PADDING: u64 = 2;

pub const BLOCK_OUTGOING: u64 = 3;

pub const UPDATE_TIMER: u64 = 4;

// Codes of a counter's operation.
pub const INCREMENT: u64 = 1;

pub const DECREMENT: u64 = 2;

pub const SET: u64 = 3;
