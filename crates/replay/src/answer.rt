// An answer as words in the corpus's layout, so that two answers are the same where their words are.
ghost use Rattle.std.specs.Prelude.{◌≡◌, ℕ, ◌+◌, ◌≤◌, ◌<◌, length, get_or, IfSome, MatchOption};
ghost use Rattle.machine.specs.Constants.{machine_max};

use corpus::{ANSWER, OUTPUT_WORDS, OWN_WORDS, ROWS_AT, RUNTIME_WORDS, STATE_MOST};
use machine::constants::{MACHINE_MAX, ROW_WORDS};
use steps::{Answer, Framework, MachineRuntime};

// Bits of a float. NaNs count as one.
fn bits(x: f64) -> u64 {
    if x.is_nan() {
        0x7ff8_0000_0000_0000
    } else {
        x.to_bits()
    }
}

fn runtime_words(r: &MachineRuntime) -> [u64; RUNTIME_WORDS] {
    [
        r.current_state,
        r.state_limit,
        r.counts.padding_sent,
        r.counts.normal_sent,
        r.counts.blocking_duration,
        r.machine_start,
        r.allowed_blocked_microsec,
        r.counters.counter_a,
        r.counters.counter_b,
    ]
}

fn own_words(fw: &Framework) -> [u64; OWN_WORDS] {
    [
        fw.machines,
        fw.current_time,
        bits(fw.fixed.max_padding_frac),
        fw.totals.normal_sent_packets,
        fw.totals.padding_sent_packets,
        bits(fw.fixed.max_blocking_frac),
        fw.totals.blocking_duration,
        fw.totals.blocking_started,
        fw.totals.blocking_active,
        fw.signal_pending,
        fw.fixed.framework_start,
    ]
}

// The framework's state with so many machines, behind the number of its words.
fn put_state(out: &mut [u64], fw: &Framework, machines: usize)
    requires { (1 + STATE_MOST ≤ length out.old) × (machines ≤ machine_max) }
{
    out[0] = (OWN_WORDS + RUNTIME_WORDS * machines) as u64;
    out[1..1 + OWN_WORDS].copy_from_slice(&own_words(fw));
    let rows = out[1 + OWN_WORDS..].chunks_exact_mut(RUNTIME_WORDS);
    for (r, row) in fw.runtime[..machines].iter().zip(rows) {
        row.copy_from_slice(&runtime_words(r));
    }
}

// A count that must not pass the most machines.
pub fn at_most_max(n: u64) -> usize
    ensures { result ≤ machine_max }
{
    n.min(MACHINE_MAX as u64) as usize
}

// An answer with so many machines of its framework.
pub fn words(a: &Answer, rows: &[u64; OUTPUT_WORDS], machines: usize) -> [u64; ANSWER]
    requires { machines ≤ machine_max }
{
    let mut out = [0u64; ANSWER];
    out[..ROWS_AT].copy_from_slice(&[a.refusal, a.actions, a.chance_used, a.value_used]);
    let count = ROW_WORDS * at_most_max(a.actions);
    let state = ROWS_AT + count;
    out[ROWS_AT..state].copy_from_slice(&rows[..count]);
    put_state(&mut out[state..], &a.framework, machines);
    out
}

// The first place at which two answers differ.
pub fn difference(a: &[u64; ANSWER], b: &[u64; ANSWER]) -> Option<usize>
    ensures within { IfSome result (λ n. n < ANSWER) }
    ensures before { let same : ℕ → Type 0 = λ n. (k : ℕ) → k < n → get_or a.now k 0 ≡ get_or b.now k 0 in
        MatchOption result (same ANSWER) same }
{
    a.iter().zip(b).position(|(x, y)| *x != *y)
}
