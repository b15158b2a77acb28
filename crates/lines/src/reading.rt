// Lines to rows: those of a kind are counted, and a table is filled from them.
ghost use Rattle.std.specs.Prelude.{◌≡◌, ◌++◌, ◌*◌, ◌≤◌, ◌<◌, length, take, drop};
ghost use Rattle.columns.specs.Columns.{right};
ghost use Rattle.machine.specs.Same.{same};
ghost use Rattle.lines.specs.Lines.{kind_columns, line_bytes, is_line, words_of, lines as lines_in, table_of};

use super::{KIND_COLUMNS, LineKind};
use cells::WORD_COLUMNS;

// ---- judging

// Whether a line has this kind, a digit, in its first columns.
#[tactic(auto, using(crate::proofs::Kind::kind_test))]
fn has_kind(line: &[u8], kind: u64) -> bool
    requires { (kind_columns ≤ length line.now) × (kind < 10) }
    ensures { result ≡ same (take kind_columns line.now) (right kind_columns kind) }
{
    line[..KIND_COLUMNS] == [b' ', b' ', b' ', b'0' + kind as u8]
}

// Whether bytes are a line of this kind.
#[tactic(auto, using(crate::proofs::Kind::line_test))]
fn is_line(line: &[u8], kind: LineKind) -> bool
    requires { (length line.now ≡ kind.size) × (kind.number < 10) }
    ensures { result ≡ is_line kind.number kind.words line.now }
{
    has_kind(line, kind.number)
        && cells::good_cells(&line[KIND_COLUMNS..], kind.words) == kind.words
        && line[line.len() - 1] == b'\n'
}

// How many lines of this kind stand at the front.
#[tactic(auto, using(crate::proofs::Places::inside, crate::proofs::Places::all_inside, cells::specs::Laws::passed_none, cells::specs::Laws::passed_more, cells::specs::Laws::passed_fails, cells::specs::Laws::passed_all, crate::proofs::Kind::line_at), unfolding(crate::specs::Lines::lines))]
pub fn lines(text: &[u8], kind: LineKind) -> usize
    requires { kind.number < 10 }
    ensures is { result ≡ lines_in kind.number kind.words text.now }
    ensures inside { kind.size * result ≤ length text.now }
{
    let most = text.len() / kind.size;
    for i in 0..most {
        let at = kind.size * i;
        if !is_line(&text[at..at + kind.size], kind) {
            return i;
        }
    }
    most
}

// ---- filling

// Puts the words of a line at the start of row.
#[tactic(auto, using(crate::proofs::Filled::one_word), unfolding(crate::specs::Lines::words_of, cells::specs::Cells::each))]
fn put_words(line: &[u8], words: usize, row: &mut [u64])
    requires { (length line.now ≡ line_bytes words) × (words ≤ length row.old) }
    ensures { row.new ≡ words_of words line.now ++ drop words row.old }
{
    for i in 0..words {
        let at = KIND_COLUMNS + WORD_COLUMNS * i;
        row[i] = cells::cell_of(&line[at..at + WORD_COLUMNS]).unwrap_or(0);
    }
}

// Puts the rows of the first n lines at the start of table.
#[tactic(auto, using(crate::proofs::Places::place), unfolding(crate::specs::Lines::table_of, cells::specs::Cells::each))]
pub fn put_rows(text: &[u8], n: usize, kind: LineKind, table: &mut [u64])
    requires { (kind.size * n ≤ length text.now) × (kind.words * n ≤ length table.old) }
    ensures { table.new
        ≡ table_of kind.words n text.now ++ drop (kind.words * n) table.old }
{
    for i in 0..n {
        let at = kind.size * i;
        put_words(
            &text[at..at + kind.size],
            kind.words,
            &mut table[kind.words * i..],
        );
    }
}
