// Rows to lines.
ghost use Rattle.std.specs.Prelude.{◌≡◌, ◌++◌, ◌*◌, ◌≤◌, length, drop};
ghost use Rattle.cells.specs.Cells.{each};
ghost use Rattle.lines.specs.Lines.{line_bytes, line_of};

use super::{KIND_COLUMNS, LineKind};
use cells::WORD_COLUMNS;

// Puts a row's line at the start of line.
#[tactic(auto, using(crate::proofs::Written::lined))]
fn put_line(kind: u64, row: &[u64], line: &mut [u8])
    requires { line_bytes (length row.now) ≤ length line.old }
    ensures { line.new
        ≡ line_of kind row.now ++ drop (line_bytes (length row.now)) line.old }
{
    columns::put_number(line, 0, KIND_COLUMNS, kind);
    columns::put_numbers(&mut line[KIND_COLUMNS..], WORD_COLUMNS, row);
    let end = KIND_COLUMNS + WORD_COLUMNS * row.len();
    line[end] = b'\n';
}

// Puts the lines of the first n rows of a table at the start of sheet. Worked out where it is called: there
// the kind's widths are constants.
#[inline(always)]
#[tactic(auto, using(crate::proofs::Places::place), unfolding(cells::specs::Cells::each))]
pub fn put_lines(kind: LineKind, n: usize, table: &[u64], sheet: &mut [u8])
    requires { (kind.words * n ≤ length table.now) × (kind.size * n ≤ length sheet.old) }
    ensures { sheet.new
        ≡ each (line_of kind.number) kind.words n table.now ++ drop (kind.size * n) sheet.old }
{
    for i in 0..n {
        let row = kind.words * i;
        put_line(
            kind.number,
            &table[row..row + kind.words],
            &mut sheet[kind.size * i..],
        );
    }
}
