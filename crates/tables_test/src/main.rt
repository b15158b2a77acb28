// Valid tables with one word or two of them damaged, and the refusal that each must get: a dot is written
// for each that does, an x for each that does not. The tables stand in one list of words: a machine row more
// than there may be, three state rows, and four transition rows. Machine 0 has the first two states, the
// others have the third.
#![tactic(auto)]

ghost use Rattle.std.specs.Prelude.{◌≤◌};

const STDOUT_FILENO: i32 = 1;

use machine::constants::{
    ACTION, COUNTER_A, COUNTER_B, COUNTER_DIST, DURATION, EVENT_NUM, EVENTS, FIRST_STATE, FLAGS,
    LIMIT, MACHINE_MAX, MACHINE_WORDS, MAX_BLOCKING_FRAC, MAX_PADDING_FRAC, NUM_STATES,
    STATE_END as END, STATE_SIGNAL as SIGNAL, STATE_WORDS, TIMEOUT, TIMER, TRANSITION_WORDS,
};
use machine::tables::Tables;
use refusal::number;

// Bits of an f64: 0.5, 1, 2, -1, -0.0, infinity, a NaN, the lowest and the highest number.
const HALF: u64 = 0x3fe0_0000_0000_0000;

const ONE: u64 = 0x3ff0_0000_0000_0000;

const TWO: u64 = 0x4000_0000_0000_0000;

const MINUS: u64 = 0xbff0_0000_0000_0000;

const MINUS_ZERO: u64 = 0x8000_0000_0000_0000;

const INFINITE: u64 = 0x7ff0_0000_0000_0000;

const NAN: u64 = 0x7ff8_0000_0000_0000;

const LOWEST: u64 = 0xffef_ffff_ffff_ffff;

const HIGHEST: u64 = 0x7fef_ffff_ffff_ffff;

// 2^63.
const HIGH: u64 = 0x8000_0000_0000_0000;

// ---- places in the list

// Machine rows: as many as there may be, and with one more.
const MACHINES: usize = MACHINE_MAX * MACHINE_WORDS;

const MACHINES_MORE: usize = MACHINES + MACHINE_WORDS;

const STATES: usize = 3 * STATE_WORDS;

const TRANSITIONS: usize = 4 * TRANSITION_WORDS;

// Where each row starts, and where the list ends: that is the place of no word.
const STATE_0: usize = MACHINES_MORE;

const STATE_1: usize = STATE_0 + STATE_WORDS;

const STATE_2: usize = STATE_1 + STATE_WORDS;

const TRANSITIONS_AT: usize = MACHINES_MORE + STATES;

const WORDS: usize = TRANSITIONS_AT + TRANSITIONS;

const NONE: usize = WORDS;

// Of the second machine.
const SECOND_PADDING: usize = MACHINE_WORDS + MAX_PADDING_FRAC;

// Of state 0. A distribution is its kind, low, high, start and max, a counter its operation, copy and
// distribution, an event the first row and the count.
const ACTION_0: usize = STATE_0 + ACTION;

const FLAGS_0: usize = STATE_0 + FLAGS;

const TIMEOUT_0: usize = STATE_0 + TIMEOUT;

const TIMEOUT_LOW: usize = TIMEOUT_0 + 1;

const TIMEOUT_HIGH: usize = TIMEOUT_0 + 2;

const TIMEOUT_START: usize = TIMEOUT_0 + 3;

const TIMEOUT_MAX: usize = TIMEOUT_0 + 4;

const DURATION_0: usize = STATE_0 + DURATION;

const DURATION_HIGH: usize = DURATION_0 + 2;

const LIMIT_0: usize = STATE_0 + LIMIT;

const A_0: usize = STATE_0 + COUNTER_A;

const A_COPY: usize = A_0 + 1;

const A_DIST: usize = A_0 + COUNTER_DIST;

const B_0: usize = STATE_0 + COUNTER_B;

const B_COPY: usize = B_0 + 1;

const B_DIST: usize = B_0 + COUNTER_DIST;

const B_LOW: usize = B_DIST + 1;

const EVENT_0: usize = STATE_0 + EVENTS;

const COUNT_0: usize = EVENT_0 + 1;

const LAST_EVENT: usize = EVENT_0 + 2 * (EVENT_NUM as usize - 1);

const LAST_COUNT: usize = LAST_EVENT + 1;

// Of states 1 and 2, the event with kind 3 of state 2 among them.
const FLAGS_1: usize = STATE_1 + FLAGS;

const TIMER_1: usize = STATE_1 + TIMER;

const TIMEOUT_1: usize = STATE_1 + TIMEOUT;

const EVENT_1: usize = STATE_1 + EVENTS;

const ACTION_2: usize = STATE_2 + ACTION;

const FLAGS_2: usize = STATE_2 + FLAGS;

const TIMER_2: usize = STATE_2 + TIMER;

const EVENT_2: usize = STATE_2 + EVENTS + 6;

const COUNT_2: usize = EVENT_2 + 1;

// Of the four transitions: target and probability.
const TARGET_0: usize = TRANSITIONS_AT;

const CHANCE_0: usize = TARGET_0 + 1;

const TARGET_1: usize = TARGET_0 + TRANSITION_WORDS;

const CHANCE_1: usize = TARGET_1 + 1;

const TARGET_2: usize = TARGET_1 + TRANSITION_WORDS;

const CHANCE_2: usize = TARGET_2 + 1;

const TARGET_3: usize = TARGET_2 + TRANSITION_WORDS;

const CHANCE_3: usize = TARGET_3 + 1;

// ---- the tables

// Both fractions of machine 0 are 0.5, of the others 0.
fn machines() -> [u64; WORDS] {
    let mut w = [0; WORDS];
    w[MAX_PADDING_FRAC] = HALF;
    w[MAX_BLOCKING_FRAC] = HALF;
    w[NUM_STATES] = 2;
    for row in w[MACHINE_WORDS..MACHINES_MORE].chunks_exact_mut(MACHINE_WORDS) {
        row[FIRST_STATE] = 2;
        row[NUM_STATES] = 1;
    }
    w
}

// State 0: BlockOutgoing with a limit; A is incremented, B is set by copy. Its first event goes to 0 or
// 1, its last to END.
fn put_state_0(w: &mut [u64; WORDS]) {
    w[ACTION_0] = 3;
    w[FLAGS_0] = 3;
    w[TIMEOUT_0] = 1;
    w[TIMEOUT_HIGH] = ONE;
    w[DURATION_0] = 1;
    w[DURATION_HIGH] = ONE;
    w[LIMIT_0] = 1;
    w[A_0] = 1;
    w[A_DIST] = 1;
    w[B_0] = 3;
    w[B_COPY] = 1;
    w[B_DIST] = 2;
    w[COUNT_0] = 2;
    w[LAST_EVENT] = 2;
    w[LAST_COUNT] = 1;
}

// State 1 has no action, and what it does not use is not fit for use. State 2: Cancel of all timers;
// an event signals.
fn put_states_1_and_2(w: &mut [u64; WORDS]) {
    w[FLAGS_1] = 99;
    w[TIMER_1] = 99;
    w[TIMEOUT_1] = 99;
    w[EVENT_1] = 99;
    w[ACTION_2] = 1;
    w[FLAGS_2] = 99;
    w[TIMER_2] = 2;
    w[EVENT_2] = 3;
    w[COUNT_2] = 1;
}

// Half to 0, half to 1; END; SIGNAL.
fn put_transitions(w: &mut [u64; WORDS]) {
    w[CHANCE_0] = 0x3f00_0000;
    w[TARGET_1] = 1;
    w[CHANCE_1] = 0x3f00_0000;
    w[TARGET_2] = END;
    w[CHANCE_2] = 0x3f80_0000;
    w[TARGET_3] = SIGNAL;
    w[CHANCE_3] = 0x3f80_0000;
}

fn valid() -> [u64; WORDS] {
    let mut w = machines();
    put_state_0(&mut w);
    put_states_1_and_2(&mut w);
    put_transitions(&mut w);
    w
}

// ---- one case

// Refusals are numbers here, as a sender sees them: 0 is none.
fn say(answer: u64, refusal: u64) {
    let mark = if answer == refusal { b"." } else { b"x" };
    io::write_all(STDOUT_FILENO, mark);
}

fn fractions_number(padding: f64, blocking: f64) -> u64 {
    number(tables::check_fractions(padding, blocking))
}

fn tables_number(machines: &[u64], states: &[u64], transitions: &[u64]) -> u64 {
    number(tables::check_tables(&Tables {
        machines,
        states,
        transitions,
    }))
}

// The answer to the first m, s and t words of the three tables.
fn answer(w: &[u64; WORDS], m: usize, s: usize, t: usize) -> u64
    requires { (m ≤ MACHINES_MORE) × (s ≤ STATES) × (t ≤ TRANSITIONS) }
{
    tables_number(
        &w[..m],
        &w[STATE_0..STATE_0 + s],
        &w[TRANSITIONS_AT..TRANSITIONS_AT + t],
    )
}

// The valid tables, of each so many words.
fn cut(refusal: u64, m: usize, s: usize, t: usize)
    requires { (m ≤ MACHINES_MORE) × (s ≤ STATES) × (t ≤ TRANSITIONS) }
{
    say(answer(&valid(), m, s, t), refusal);
}

fn damage(w: &mut [u64; WORDS], place: usize, value: u64) {
    if place < WORDS {
        w[place] = value;
    }
}

// Two words damaged.
fn two(refusal: u64, place: usize, value: u64, place_2: usize, value_2: u64) {
    let mut w = valid();
    damage(&mut w, place, value);
    damage(&mut w, place_2, value_2);
    say(answer(&w, MACHINES, STATES, TRANSITIONS), refusal);
}

fn one(refusal: u64, place: usize, value: u64) {
    two(refusal, place, value, NONE, 0);
}

// ---- a long row: of up to 1,023 states, state 0 goes to 40 with probability 1/64 each

const LONG_STATES: usize = 1023 * STATE_WORDS;

const LONG_COUNT: usize = EVENTS + 1;

const TARGETS: usize = 40;

const LONG_ROW: usize = TARGETS * TRANSITION_WORDS;

fn long_states(count: u64) -> [u64; LONG_STATES] {
    let mut s = [0; LONG_STATES];
    s[LONG_COUNT] = count;
    s
}

// To the first 40 states.
fn long_row() -> [u64; LONG_ROW] {
    let mut t = [0; LONG_ROW];
    for (i, row) in t.chunks_exact_mut(TRANSITION_WORDS).enumerate() {
        row[0] = i as u64;
        row[1] = 0x3c80_0000;
    }
    t
}

// Puts a target in another's place.
fn put_target(t: &mut [u64; LONG_ROW], place: usize, target: u64) {
    if place < TARGETS {
        t[place * TRANSITION_WORDS] = target;
    }
}

// A machine of n states, whose row has so many transitions.
fn many(refusal: u64, n: u64, count: u64, t: &[u64; LONG_ROW]) {
    let mut m = [0; MACHINE_WORDS];
    m[NUM_STATES] = n;
    say(tables_number(&m, &long_states(count), t), refusal);
}

fn long(refusal: u64, count: u64, place: usize, target: u64) {
    let mut t = long_row();
    put_target(&mut t, place, target);
    many(refusal, 40, count, &t);
}

// Two targets of a row of 40.
fn long_two(refusal: u64, n: u64, target: u64, target_2: u64) {
    let mut t = long_row();
    put_target(&mut t, 0, target);
    put_target(&mut t, 39, target_2);
    many(refusal, n, 40, &t);
}

// ---- the cases

// Refusals 1 and 2 of the framework's own fractions, and none.
fn framework_fractions() {
    let nan = 0.0 / 0.0;
    say(fractions_number(0.0, 1.0), 0);
    say(fractions_number(-0.0, 0.5), 0);
    say(fractions_number(1.5, 2.0), 1);
    say(fractions_number(nan, 0.0), 1);
    say(fractions_number(1.0, -0.5), 2);
    say(fractions_number(0.0, nan), 2);
}

// Refusal 3, and none.
fn forms() {
    // valid tables of the most machines
    one(0, NONE, 0);
    // no machines at all
    cut(0, 0, 0, 0);
    // a machine row too short
    cut(3, MACHINES - 1, STATES, TRANSITIONS);
    // a state row too short
    cut(3, MACHINES, STATES - 1, TRANSITIONS);
    // a transition row too short
    cut(3, MACHINES, STATES, TRANSITIONS - 1);
    // a machine too many
    cut(3, MACHINES_MORE, STATES, TRANSITIONS);
}

// Refusals 4 and 5.
fn fractions() {
    // padding: below 0, above 1, infinite
    one(4, MAX_PADDING_FRAC, MINUS);
    one(4, MAX_PADDING_FRAC, TWO);
    one(4, MAX_PADDING_FRAC, INFINITE);
    // 1, -0.0, NaN
    one(0, MAX_PADDING_FRAC, ONE);
    one(0, MAX_PADDING_FRAC, MINUS_ZERO);
    one(0, MAX_PADDING_FRAC, NAN);
    // blocking: below 0, above 1, infinite
    one(5, MAX_BLOCKING_FRAC, MINUS);
    one(5, MAX_BLOCKING_FRAC, TWO);
    one(5, MAX_BLOCKING_FRAC, INFINITE);
    // 1, -0.0, NaN
    one(0, MAX_BLOCKING_FRAC, ONE);
    one(0, MAX_BLOCKING_FRAC, MINUS_ZERO);
    one(0, MAX_BLOCKING_FRAC, NAN);
    // both
    two(4, MAX_BLOCKING_FRAC, TWO, MAX_PADDING_FRAC, TWO);
    // of the second machine
    one(4, SECOND_PADDING, TWO);
}

// Refusals 6 and 7.
fn places() {
    // no states; 100,001
    one(6, NUM_STATES, 0);
    one(6, NUM_STATES, 100001);
    // u64::MAX states from u64::MAX on
    two(6, NUM_STATES, u64::MAX, FIRST_STATE, u64::MAX);
    // 100,000 states, of which three are there
    one(7, NUM_STATES, 100000);
    // two states that end the table; one past it
    one(0, FIRST_STATE, 1);
    one(7, FIRST_STATE, 2);
    // a first row near 2^64
    one(7, FIRST_STATE, u64::MAX);
}

// Refusals 8 and 13 by the pair of an event.
fn rows() {
    // count 0 is no row, whatever the first row says
    two(0, EVENT_0, u64::MAX, COUNT_0, 0);
    // a row of two at the last transition; one that ends the table, of sum 2
    one(8, EVENT_0, 3);
    one(13, EVENT_0, 2);
    // a first row near 2^64, of 2^63; a count near 2^64
    one(8, EVENT_0, u64::MAX);
    one(8, EVENT_0, HIGH);
    one(8, COUNT_0, u64::MAX);
    // the last event
    one(8, LAST_EVENT, 4);
    // the same, and unknown flags
    two(8, LAST_EVENT, 4, FLAGS_0, 4);
}

// Refusals 9 to 11.
fn words_and_targets() {
    // a probability word of 2^32; of 2^63, with a target that is none
    one(9, CHANCE_0, 4294967296);
    two(9, CHANCE_0, HIGH, TARGET_0, 9);
    // target 2 of two states; below SIGNAL; above END; u64::MAX, with probability 0
    one(10, TARGET_1, 2);
    one(10, TARGET_1, 4294967293);
    one(10, TARGET_1, 4294967296);
    two(10, TARGET_1, u64::MAX, CHANCE_1, 0);
    // END and SIGNAL in a row; END twice
    two(0, TARGET_0, END, TARGET_1, SIGNAL);
    two(11, TARGET_0, END, TARGET_1, END);
    // target 0 twice, with a probability of 0 the second time
    one(11, TARGET_1, 0);
    two(11, TARGET_1, 0, CHANCE_1, 0);
}

// Refusals 12 and 13.
fn probabilities() {
    // 0, -0.0, below 0, above 1
    one(12, CHANCE_0, 0);
    one(12, CHANCE_0, 0x80000000);
    one(12, CHANCE_0, 0xbf000000);
    one(12, CHANCE_0, 0x3fc00000);
    // above 1, and then a target seen before
    two(12, CHANCE_0, 0x3fc00000, TARGET_1, 0);
    // a NaN, and so the sum
    one(0, CHANCE_0, 0x7fc0_0000);
    // a sum above 1 by 2^-23; by 2^-24, which f32 rounds to 1
    one(13, CHANCE_0, 0x3f000002);
    one(0, CHANCE_0, 0x3f000001);
    // 1 + 5e-8 is 1, 1 + 1e-7 is not
    two(0, CHANCE_0, 0x3f80_0000, CHANCE_1, 0x3356bf95);
    two(13, CHANCE_0, 0x3f80_0000, CHANCE_1, 0x33d6bf95);
}

// Refusal 14 of an action.
fn action_codes() {
    // action 5; flags 4
    one(14, ACTION_0, 5);
    one(14, FLAGS_0, 4);
    // timeout absent, of kind 3; duration likewise
    one(14, TIMEOUT_0, 0);
    one(14, TIMEOUT_0, 3);
    one(14, DURATION_0, 0);
    one(14, DURATION_0, 3);
    // limit absent, of kind 3
    one(0, LIMIT_0, 0);
    one(14, LIMIT_0, 3);
    // SendPadding has no duration, UpdateTimer no timeout
    two(0, ACTION_0, 2, DURATION_0, 0);
    two(0, ACTION_0, 4, TIMEOUT_0, 0);
    // Cancel of timer 3; without an action the timer is not used
    one(14, TIMER_2, 3);
    two(0, ACTION_2, 0, TIMER_2, 3);
}

// Refusal 14 of a counter.
fn counter_codes() {
    // operation 4; copy 2; kind 3; kind 3 under copy
    one(14, A_0, 4);
    one(14, A_COPY, 2);
    one(14, A_DIST, 3);
    one(14, B_DIST, 3);
    // without an operation, copy and kind are not used
    two(0, A_0, 0, A_DIST, 9);
    // in counter B, and an invalid timeout
    two(14, B_DIST, 3, TIMEOUT_LOW, TWO);
}

// Refusal 15.
fn distributions() {
    // low above high, low infinite, high NaN, high - low infinite
    one(15, TIMEOUT_LOW, TWO);
    one(15, TIMEOUT_LOW, INFINITE);
    one(15, TIMEOUT_HIGH, NAN);
    two(15, TIMEOUT_LOW, LOWEST, TIMEOUT_HIGH, HIGHEST);
    // drawn outside: the bounds are not used
    two(0, TIMEOUT_0, 2, TIMEOUT_LOW, INFINITE);
    // start and max may be anything
    two(0, TIMEOUT_START, NAN, TIMEOUT_MAX, INFINITE);
    // counter B, under copy
    two(15, B_DIST, 1, B_LOW, TWO);
    // the first machine is checked before the second
    two(15, TIMEOUT_LOW, TWO, SECOND_PADDING, TWO);
}

// Refusals 9 to 13 of a long row.
fn long_rows() {
    // all 40 targets; END for the last; the first for the last
    long(0, 40, 40, 0);
    long(0, 40, 39, END);
    long(11, 40, 39, 0);
    // a row that ends before the fault; one that begins with it
    long(0, 39, 39, 0);
    long(11, 40, 0, 39);
    // a target that is none; a row that is too long
    long(10, 40, 39, 40);
    long(8, 41, 40, 0);
}

// The same where the marks take 16 words, the most that are cleared for few states, and more.
fn many_states() {
    // SIGNAL's is the last mark of the 16 words
    long_two(0, 1022, END, SIGNAL);
    long_two(11, 1022, SIGNAL, SIGNAL);
    // the first 40 states; a target twice
    long_two(0, 1023, 0, 39);
    long_two(11, 1023, 39, 39);
    // END and SIGNAL; each twice; END beside the last state
    long_two(0, 1023, END, SIGNAL);
    long_two(11, 1023, END, END);
    long_two(11, 1023, SIGNAL, SIGNAL);
    long_two(0, 1023, 1022, END);
    // a target that is none
    long_two(10, 1023, 0, 1023);
}

fn main() {
    framework_fractions();
    forms();
    fractions();
    places();
    rows();
    words_and_targets();
    probabilities();
    action_codes();
    counter_codes();
    distributions();
    long_rows();
    many_states();
    io::write_all(STDOUT_FILENO, b"\n");
}
