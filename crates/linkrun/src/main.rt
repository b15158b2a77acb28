// The printed run: reads the input's words, runs its calls, and hands the text over call by call.
#![tactic(auto)]

mod handing;

ghost use Rattle.std.specs.Prelude.{◌≡◌, [], ◌≤◌, length, take, drop};
ghost use Rattle.text.specs.Printed.{call_text};
ghost use Rattle.stream.specs.Stream.{call_count, calls_at};
ghost use Rattle.run.specs.Run.{calls_text, input_text, run_text};

use handing::Handed;
use run::{Lent, Standing};
use stream::Input;

// Hands over the line of call 0: of the opening, or of an input that is refused.
fn first_line(handed: &mut Handed, refusal: u64)
    requires start { handed.old.from ≡ 0 }
    requires next { take 15 (input_text handed.old.input.now) ≡ call_text 0 refusal 0 [] }
    ensures further { handed.new.from ≡ 15 }
    ensures same { handed.new.input.now ≡ handed.old.input.now }
{
    let mut line = [0u8; 15];
    let rows: [u64; 0] = [];
    text::call_text(&mut line, 0, refusal, 0, &rows);
    handed.hand_over(&line);
}

// Runs the calls behind an accepted opening, whose line was handed over, and hands over what each
// prints.
fn calls(lent: &Lent, opened: Standing, handed: &mut Handed)
    requires few { length lent.now.input.words.now ≤ 8192 }
    requires stands { (opened.next ≡ calls_at lent.now.input.words.now) × (opened.chance ≤ length lent.now.chances.now)
        × (opened.value ≤ length lent.now.values.now) }
    requires left { (handed.old.from ≤ 671)
        × (drop handed.old.from (input_text handed.old.input.now) ≡ calls_text lent.now.input.words.now (call_count lent.now.input.words.now) 1 opened) }
    ensures { drop handed.new.from (input_text handed.old.input.now) ≡ [] }
{
    let count = stream::word(lent.input.words, 8);
    let mut text = [0u8; 671];
    let mut s = opened;
    for i in 0..count {
        let r = run::one_call(lent, i + 1, s, &mut text);
        handed.hand_over(&text[..r.bytes]);
        s = r.stands;
    }
}

// Runs the opening of an accepted input on its tapes, hands its line over, and goes on with the
// calls; a refused opening ends the run.
#[tactic(auto, using(stream::specs::Inside::tapes_inside))]
fn run(input: Input, handed: &mut Handed)
    requires start { handed.old.from ≡ 0 }
    requires text { input_text handed.old.input.now ≡ run_text input.words.now }
    requires few { length input.words.now ≤ 8192 }
    ensures { drop handed.new.from (input_text handed.old.input.now) ≡ [] }
{
    let mut chances = [0f32; 8192];
    let mut values = [0f64; 8192];
    let chance_words = input.chances();
    let value_words = input.values();
    text::put_chances(chance_words, &mut chances);
    text::put_values(value_words, &mut values);
    let lent = Lent {
        input,
        chances: &chances[..chance_words.len()],
        values: &values[..value_words.len()],
    };
    let started = run::start(&input, lent.values);
    first_line(handed, started.refusal);
    if started.refusal == 0 {
        calls(&lent, started.stands, handed);
    }
}

// Hands over the text of any input, to its end.
#[tactic(auto, using(stream::proofs::Loaded::taken_up))]
fn print(input: &[u8]) -> Handed
    ensures { drop result.from (input_text input.now) ≡ [] }
{
    let mut handed = Handed::nothing(input);
    let mut words = [0u64; 8192];
    match stream::load(input, &mut words) {
        Ok(()) => run(Input::accepted(&words[..input.len() / 8]), &mut handed),
        Err(refusal) => first_line(&mut handed, refusal.into()),
    }
    handed
}

fn main() {
    let mut bytes = [0u8; 65537];
    let n = io::read_full(0, &mut bytes);
    print(&bytes[..n]);
}
