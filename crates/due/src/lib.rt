// The rows of a batch in the order in which they fall due (document 02, job 2), in a second lent buffer.
#![tactic(auto)]

ghost use Rattle.std.specs.Prelude.{◌≡◌, ◌+◌, ◌%◌, ◌≤◌, length, OnOk};
ghost use Rattle.refusal.specs.Refusal.{refusal_of};
ghost use Rattle.machine.specs.Constants.{row_words};
ghost use Rattle.due.specs.Due.{all_rows, kinds_known, due_refusal, answer_of, Lists};
ghost use Rattle.due.specs.Places.{row_at};

use machine::constants::{CANCEL, ROW_KIND, ROW_WORDS, UPDATE_TIMER};
use refusal::Refusal;

mod order; // which of two rows comes first
mod sorting; // places of rows, sorted in the buffer

// The refusal or 0, and how many rows were written: numbers, since they cross to C.
#[repr(C)]
#[derive(Clone, Copy)]
pub struct Due {
    pub refusal: u64,
    pub rows: u64,
}

impl From<Result<u64, Refusal>> for Due {
    ghost from_gives = { λ r d. d ≡ answer_of r };

    fn from(answer: Result<u64, Refusal>) -> Due {
        match answer {
            Ok(rows) => Due { refusal: 0, rows },
            Err(r) => Due {
                refusal: r.into(),
                rows: 0,
            },
        }
    }
}

// The row at a place, which is the number of its first word.
fn row_at(rows: &[u64], place: usize) -> &[u64]
    requires { place + row_words ≤ length rows.now }
    ensures row { result.now ≡ row_at rows.now place }
    ensures len { length result.now ≡ row_words }
{
    &rows[place..place + ROW_WORDS]
}

// Whether the rows have known kinds.
fn kinds_known(rows: &[u64]) -> bool
    ensures { result ≡ kinds_known (all_rows rows.now) }
{
    rows.chunks_exact(ROW_WORDS)
        .all(|row| matches!(row[ROW_KIND], CANCEL..=UPDATE_TIMER))
}

// Whether the rows can be listed: whole rows of known kinds, and room for them.
#[tactic(auto, unfolding(crate::specs::Due::due_refusal))]
fn tested(rows: &[u64], out: &[u64]) -> Result<(), Refusal>
    ensures refusal { refusal_of result ≡ due_refusal rows.now out.now }
    ensures fits { OnOk result ((length rows.now % row_words ≡ 0) × (length rows.now ≤ length out.now)) }
{
    if rows.len() % ROW_WORDS != 0 {
        return Err(Refusal::NotWholeRows);
    }
    if !kinds_known(rows) {
        return Err(Refusal::UnknownCode);
    }
    if out.len() < rows.len() {
        return Err(Refusal::NoRoom);
    }
    Ok(())
}

// Puts the rows into out, in the order in which they fall due, and counts them.
#[tactic(auto, unfolding(crate::specs::Due::due_list))]
fn list(rows: &[u64], out: &mut [u64]) -> Result<u64, Refusal>
    ensures { Lists rows.now out.old (answer_of result) out.new }
{
    tested(rows, out)?;
    sorting::put_in_order(rows, out);
    Ok((rows.len() / ROW_WORDS) as u64)
}

// The same for C: a refusal is a number.
pub fn due_list(rows: &[u64], out: &mut [u64]) -> Due
    ensures { Lists rows.now out.old result out.new }
{
    list(rows, out).into()
}
