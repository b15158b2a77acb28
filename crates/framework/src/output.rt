// The output: one row of six words for each action, in machine order.
ghost use Rattle.std.specs.Prelude.{◌≡◌, ◌*◌, ◌/◌, ◌≤◌, length};
ghost use Rattle.machine.specs.Constants.{machine_max, row_words};
ghost use Rattle.steps.specs.Framework.{action_row, action_rows, written};

use machine::constants::ROW_WORDS;
use steps::TriggerAction;

// A pending action's row at the front of what is lent, and how many words it has: none where there
// is no action.
fn put_row(row: &mut [u64], machine: u64, pending: Option<TriggerAction>) -> usize
    requires { row_words ≤ length row.old }
    ensures { let words = action_row machine pending in
        (result ≡ length words) × (row.new ≡ written words row.old) }
{
    let Some(p) = pending else {
        return 0;
    };
    row[..ROW_WORDS].copy_from_slice(&[machine, p.kind, p.flags, p.timer, p.timeout, p.duration]);
    ROW_WORDS
}

// The rows of the first `count` machines, and how many rows. Words after the last row stay.
pub fn put_rows(actions: &[Option<TriggerAction>; 16], count: usize, out: &mut [u64]) -> u64
    requires { (count ≤ machine_max) × (row_words * count ≤ length out.old) }
    ensures { let words = action_rows actions.now count in
        (result ≡ length words / row_words) × (out.new ≡ written words out.old) }
{
    let mut at = 0;
    for m in 0..count {
        at += put_row(&mut out[at..], m as u64, actions[m]);
    }
    (at / ROW_WORDS) as u64
}
