// What a run is lent.
#![tactic(auto)]

ghost use Rattle.std.specs.Prelude.{◌≡◌};
ghost use Rattle.text.specs.Words.{chances as chances_of, values as values_of};
ghost use Rattle.stream.specs.Stream.{chance_words, value_words};

use stream::Input;

// An accepted input, and its draws as floats.
#[derive(Clone, Copy)]
pub struct Lent<'a> {
    pub input: Input<'a>,
    pub chances: &'a [f32],
    pub values: &'a [f64],
    pub ghost chances_are: { chances.now ≡ chances_of (chance_words input.words.now) },
    pub ghost values_are: { values.now ≡ values_of (value_words input.words.now) },
}
