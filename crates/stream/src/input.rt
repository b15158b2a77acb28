// An accepted input, and its parts.
#![tactic(auto)]

ghost use Rattle.std.specs.Prelude.{◌≡◌, IfOk, length};
ghost use Rattle.refusal.specs.Refusal.{refusal_of};
ghost use Rattle.stream.specs.Stream.{
  calls_at,
  chance_words,
  check_of,
  layout_of,
  machine_table,
  state_table,
  transition_table,
  value_words,
};
ghost use Rattle.stream.specs.Within.{Ordered};

use super::{HEADER_WORDS, Layout, check, parts};
use machine::tables::Tables;
use refusal::Refusal;

// Words that the check accepts, and where their parts start.
#[derive(Clone, Copy)]
pub struct Input<'a> {
    pub words: &'a [u64],
    layout: Layout,
    pub ghost accepted: { check_of words.now ≡ 0 },
    pub ghost laid_out: { layout ≡ layout_of words.now },
    pub ghost inside: { Ordered layout (length words.now) },
}

impl<'a> Input<'a> {
    // The words, where the check accepts them.
    pub fn of(words: &'a [u64]) -> Result<Input<'a>, Refusal>
        ensures answer { refusal_of result ≡ check_of words.now }
        ensures same { IfOk result (λ input. input.words.now ≡ words.now) }
    {
        check(words)?;
        Ok(Input::accepted(words))
    }

    // Words that were accepted before.
    pub fn accepted(words: &'a [u64]) -> Input<'a>
        requires { check_of words.now ≡ 0 }
        ensures { result.words.now ≡ words.now }
    {
        Input {
            words,
            layout: parts(words),
        }
    }

    // The machine table, the state table and the transition table.
    #[tactic(auto, unfolding(crate::specs::Stream::machine_table, crate::specs::Stream::states_at))]
    pub fn machines(&self) -> &'a [u64]
        ensures { result.now ≡ machine_table self.now.words.now }
    {
        &self.words[HEADER_WORDS..self.layout.states]
    }

    #[tactic(auto, unfolding(crate::specs::Stream::state_table, crate::specs::Stream::transitions_at))]
    pub fn states(&self) -> &'a [u64]
        ensures { result.now ≡ state_table self.now.words.now }
    {
        &self.words[self.layout.states..self.layout.transitions]
    }

    #[tactic(auto, unfolding(crate::specs::Stream::transition_table, crate::specs::Stream::chances_at))]
    pub fn transitions(&self) -> &'a [u64]
        ensures { result.now ≡ transition_table self.now.words.now }
    {
        &self.words[self.layout.transitions..self.layout.chances]
    }

    // The three as what a call is lent.
    pub fn tables(&self) -> Tables<'a>
        ensures machines { result.machines.now ≡ machine_table self.now.words.now }
        ensures states { result.states.now ≡ state_table self.now.words.now }
        ensures transitions { result.transitions.now ≡ transition_table self.now.words.now }
    {
        Tables {
            machines: self.machines(),
            states: self.states(),
            transitions: self.transitions(),
        }
    }

    // The words of the chance draws and of the value draws.
    #[tactic(auto, unfolding(crate::specs::Stream::chance_words, crate::specs::Stream::values_at))]
    pub fn chances(&self) -> &'a [u64]
        ensures { result.now ≡ chance_words self.now.words.now }
    {
        &self.words[self.layout.chances..self.layout.values]
    }

    #[tactic(auto, unfolding(crate::specs::Stream::value_words, crate::specs::Stream::calls_at))]
    pub fn values(&self) -> &'a [u64]
        ensures { result.now ≡ value_words self.now.words.now }
    {
        &self.words[self.layout.values..self.layout.calls]
    }

    // Where the first call starts.
    pub fn first_call(&self) -> usize
        ensures { result ≡ calls_at self.now.words.now }
    {
        self.layout.calls
    }
}
