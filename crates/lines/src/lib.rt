// A line of a sheet: its kind, its words and a line feed, in columns. The kinds and their numbers of words are the caller's.

#![tactic(auto)]

ghost use Rattle.std.specs.Prelude.{◌≡◌};
ghost use Rattle.lines.specs.Lines.{line_bytes};

pub mod reading; // lines to rows
pub mod writing; // rows to lines

// The columns of a kind.
pub const KIND_COLUMNS: usize = 4;

// A kind of line: its number, the words of its row, and its bytes.
#[derive(Clone, Copy)]
pub struct LineKind {
    pub number: u64,
    pub words: usize,
    pub size: usize,
    pub ghost sized: { size ≡ line_bytes words },
}
