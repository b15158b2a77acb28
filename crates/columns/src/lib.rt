// A number in columns, right-justified: its digits are written straight to their places.
#![tactic(auto)]

ghost use Rattle.std.specs.Prelude.{◌≡◌, ◌++◌, ◌+◌, ◌*◌, ◌≤◌, ◌<◌, length, drop};
ghost use Rattle.columns.specs.Columns.{cell_in, rights};
ghost use Rattle.columns.specs.Parts.{spaces_in, digits_in};

// Puts spaces from `at` up to `end`.
#[tactic(auto, using(crate::proofs::Places::spaced))]
fn put_spaces(line: &mut [u8], at: usize, end: usize)
    requires { (at ≤ end) × (end ≤ length line.old) }
    ensures { line.new ≡ spaces_in at end line.old }
{
    line[at..end].fill(b' ');
}

// Puts the digits of a number below 100 before `end`; where there are fewer than two columns, of any.
#[tactic(auto, using(crate::proofs::Places::no_digit, crate::proofs::Places::first_digit, crate::proofs::Places::one_left, crate::proofs::Places::two_left))]
fn put_rest(line: &mut [u8], at: usize, end: usize, n: u64)
    requires { (at ≤ end) × (end ≤ length line.old) × (at + 2 ≤ end → n < 100) }
    ensures { line.new ≡ digits_in at end n line.old }
{
    if end == at {
        return;
    }
    if n < 10 {
        line[end - 1] = 48 + n as u8;
        return;
    }
    line[end - 1] = 48 + (n % 10) as u8;
    if at + 1 < end {
        line[end - 2] = 48 + (n / 10) as u8;
    }
}

// Puts the digits of n before `end`, two at a time; where there are more than columns, its last ones.
#[tactic(auto, using(crate::proofs::Places::two_more))]
fn put_digits(line: &mut [u8], at: usize, end: usize, n: u64)
    requires { (at ≤ end) × (end ≤ length line.old) }
    ensures { line.new ≡ digits_in at end n line.old }
{
    // by index: it ends with the digits or with the columns, two places a turn
    let mut i = end;
    let mut rest = n;
    while 100 <= rest && 2 <= i - at {
        let two = rest % 100;
        line[i - 1] = 48 + (two % 10) as u8;
        line[i - 2] = 48 + (two / 10) as u8;
        i -= 2;
        rest /= 100;
    }
    put_rest(line, at, i, rest);
}

// Puts n in the columns from `at` on: spaces and then its digits, where it fits; a number of more digits than columns gets
// its last ones.
#[tactic(auto, using(crate::proofs::Places::celled))]
pub fn put_number(line: &mut [u8], at: usize, width: usize, n: u64)
    requires { at + width ≤ length line.old }
    ensures { line.new ≡ cell_in at width n line.old }
{
    let end = at + width;
    put_spaces(line, at, end);
    put_digits(line, at, end, n);
}

// Puts numbers at the start of line, one behind the other, each in so many columns.
#[tactic(auto, using(crate::proofs::Numbers::no_number, crate::proofs::Numbers::next_place, crate::proofs::Numbers::one_number, crate::proofs::Numbers::all_numbers, crate::proofs::Numbers::room))]
pub fn put_numbers(line: &mut [u8], width: usize, numbers: &[u64])
    requires { width * length numbers.now ≤ length line.old }
    ensures { line.new
        ≡ rights width numbers.now ++ drop (width * length numbers.now) line.old }
{
    let mut at = 0;
    for n in numbers {
        put_number(line, at, width, *n);
        at += width;
    }
}
