// A word in its 21 columns, and the words of a row, one behind the other.
#![tactic(auto)]

ghost use Rattle.std.specs.Prelude.{◌≡◌, ◌*◌, ◌≤◌, ◌<◌, ◌^◌, length};
ghost use Rattle.cells.specs.Cells.{word_columns, leading, is_cell, cell_of};
ghost use Rattle.cells.specs.Digits.{digit_of, column_of, last_of};

// The columns of a word.
pub const WORD_COLUMNS: usize = 21;

// ---- a word

// The value of a digit.
#[tactic(auto, unfolding(crate::specs::Digits::digit_of, crate::specs::Digits::is_digit))]
fn digit(b: u8) -> Option<u64>
    ensures { result ≡ digit_of b }
{
    match b {
        b'0'..=b'9' => Some(u64::from(b - b'0')),
        _ => None,
    }
}

// The number with one column more, left of the last; nothing where no number has this byte there. A space stands before
// the first digit, and the first digit is not 0.
#[tactic(auto, using(crate::proofs::Columns::no_value, crate::proofs::Columns::value, crate::proofs::Columns::space_column, crate::proofs::Columns::no_digit, crate::proofs::Columns::digit_column))]
fn read_on(n: u64, b: u8) -> Option<u64>
    requires { n < 10 ^ 18 }
    ensures { result ≡ column_of n b }
{
    if b == b' ' {
        return (n == 0).then_some(0);
    }
    let m = n * 10 + digit(b)?;
    (m != 0).then_some(m)
}

// The last column has a digit, with which the word may grow too large.
#[tactic(auto, using(crate::proofs::Columns::no_value, crate::proofs::Columns::last_other, crate::proofs::Columns::last_large, crate::proofs::Columns::last_digit))]
fn last(n: u64, b: u8) -> Option<u64>
    ensures { result ≡ last_of n b }
{
    let d = digit(b)?;
    n.checked_mul(10)?.checked_add(d)
}

// The word whose columns the bytes are, where they are a word's. The first column has a space: no u64 has 21 digits.
#[tactic(auto, using(crate::proofs::Columns::first_digit, crate::proofs::Columns::first_space, crate::proofs::Columns::few_digits, crate::proofs::Columns::stopped, crate::proofs::Columns::ends))]
pub fn cell_of(bytes: &[u8]) -> Option<u64>
    requires { length bytes.now ≡ word_columns }
    ensures { result ≡ cell_of bytes.now }
{
    if bytes[0] != b' ' {
        return None;
    }
    let mut n = 0;
    for b in &bytes[1..20] {
        n = read_on(n, *b)?;
    }
    last(n, bytes[20])
}

// ---- the words of a row

// How many words' columns stand at the front, one behind the other, of so many.
#[tactic(auto, using(crate::specs::Laws::passed_more, crate::specs::Laws::passed_fails, crate::specs::Laws::passed_all, crate::proofs::Columns::tested))]
pub fn good_cells(bytes: &[u8], words: usize) -> usize
    requires { word_columns * words ≤ length bytes.now }
    ensures { result ≡ leading is_cell word_columns words bytes.now }
{
    for i in 0..words {
        let at = WORD_COLUMNS * i;
        if cell_of(&bytes[at..at + WORD_COLUMNS]).is_none() {
            return i;
        }
    }
    words
}
