// The text of the printed run on lent bytes, and words and floats out of its input.
#![tactic(auto)]

ghost use Rattle.std.specs.Prelude.{◌≡◌, ◌++◌, ◌+◌, ◌*◌, ◌≤◌, length, map, drop};
ghost use Rattle.machine.specs.Constants.{row_words};
ghost use Rattle.text.specs.Printed.{call_line, row_line, row_in, call_text};
ghost use Rattle.text.specs.Words.{words_to, chances, values};

use machine::constants::ROW_WORDS;

// A call's line: call, refusal and actions in 6, 4 and 4 columns, and a line feed.
#[tactic(auto, using(crate::proofs::Lines::call_lined))]
fn call_line(line: &mut [u8], call: u64, refusal: u64, actions: u64)
    requires { 15 ≤ length line.old }
    ensures { line.new
        ≡ call_line call refusal actions ++ drop 15 line.old }
{
    columns::put_number(line, 0, 6, call);
    columns::put_number(line, 6, 4, refusal);
    columns::put_number(line, 10, 4, actions);
    line[14] = b'\n';
}

// A row's line: its six words in 4, 4, 4, 4, 12 and 12 columns, and a line feed.
#[tactic(auto, using(crate::proofs::Lines::row_lined))]
fn row_line(line: &mut [u8], row: &[u64])
    requires { (41 ≤ length line.old) × (row_words ≤ length row.now) }
    ensures { line.new
        ≡ row_line row.now ++ drop 41 line.old }
{
    columns::put_number(line, 0, 4, row[0]);
    columns::put_number(line, 4, 4, row[1]);
    columns::put_number(line, 8, 4, row[2]);
    columns::put_number(line, 12, 4, row[3]);
    columns::put_number(line, 16, 12, row[4]);
    columns::put_number(line, 28, 12, row[5]);
    line[40] = b'\n';
}

// The line of row i, from `at` on.
#[tactic(auto, using(crate::proofs::Lines::rowed))]
fn put_row(out: &mut [u8], at: usize, rows: &[u64], i: usize)
    requires { (at + 41 ≤ length out.old) × (row_words * i + row_words ≤ length rows.now) }
    ensures { out.new ≡ row_in at rows.now i out.old }
{
    let row = ROW_WORDS * i;
    row_line(&mut out[at..], &rows[row..]);
}

// What a call prints: its line, and the lines of its rows. Answers how many bytes that is.
// actions beside rows: a caller may lend more rows than are printed
pub fn call_text(out: &mut [u8], call: u64, refusal: u64, actions: usize, rows: &[u64]) -> usize
    requires { (15 + 41 * actions ≤ length out.old) × (row_words * actions ≤ length rows.now) }
    ensures { (result ≡ 15 + 41 * actions)
        × (out.new
        ≡ call_text call refusal actions rows.now ++ drop result out.old) }
{
    call_line(out, call, refusal, actions as u64);
    for i in 0..actions {
        put_row(out, 15 + 41 * i, rows, i);
    }
    15 + 41 * actions
}

// Puts what `convert` makes of each item at the start of out.
#[tactic(auto, using(crate::proofs::Stores::put_more))]
fn put<A: Copy, T: Copy, F: Fn(A) -> T>(items: &[A], out: &mut [T], convert: F)
    requires room { length items.now ≤ length out.old }
    requires callable { F.IsAlwaysCallable convert }
    ensures { (of : A → T) → ((item : A) (made : T) → F.post convert item made → made ≡ of item) → out.new
        ≡ map of items.now ++ drop (length items.now) out.old }
{
    // by index: a proof knows nothing of what a loop over `iter_mut().zip(..)` wrote
    for (i, item) in items.iter().enumerate() {
        out[i] = convert(*item);
    }
}

// Puts the first k words of b at the start of out.
// k beside the slices: a caller may lend longer ones than k words take
pub fn put_words(b: &[u8], k: usize, out: &mut [u64])
    requires { (8 * k ≤ length b.now) × (k ≤ length out.old) }
    ensures { out.new ≡ words_to b.now k ++ drop k out.old }
{
    let (words, _) = b.as_chunks::<8>();
    put(&words[..k], out, u64::from_le_bytes);
}

// Puts the chance draws of all of words at the start of out.
pub fn put_chances(words: &[u64], out: &mut [f32])
    requires { length words.now ≤ length out.old }
    ensures { out.new
        ≡ chances words.now ++ drop (length words.now) out.old }
{
    put(words, out, numbers::f32_of_word);
}

// Puts the value draws of all of words at the start of out.
pub fn put_values(words: &[u64], out: &mut [f64])
    requires { length words.now ≤ length out.old }
    ensures { out.new
        ≡ values words.now ++ drop (length words.now) out.old }
{
    put(words, out, numbers::f64_of_word);
}
