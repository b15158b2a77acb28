// What is handed to write: the input's text, part by part.
ghost use Rattle.std.specs.Prelude.{◌≡◌, ◌+◌, ◌<◌, length, take, drop};
ghost use Rattle.run.specs.Run.{input_text};

// How far into an input's text the parts reach that were handed over, and whether all of them could
// be written. The fields are this module's, so nobody gets further but by handing the next part
// over.
// a flag beside the place: behind a failed write the parts go on to the text's end
#[derive(Clone, Copy)]
pub struct Handed<'a> {
    input: &'a [u8],
    from: usize,
    whole: bool,
}

impl<'a> Handed<'a> {
    // Nothing yet.
    pub fn nothing(input: &'a [u8]) -> Handed<'a>
        ensures { (result.from ≡ 0) × (result.input.now ≡ input.now) }
    {
        Handed {
            input,
            from: 0,
            whole: true,
        }
    }

    // The only call of write: `part` is what comes next in the input's text. Behind a write that
    // failed nothing more is written.
    pub fn hand_over(&mut self, part: &[u8])
        requires next { part.now ≡ take (length part.now) (drop self.old.from (input_text self.old.input.now)) }
        requires fits { self.old.from + length part.now < 18446744073709551616 }
        ensures further { self.new.from ≡ self.old.from + length part.now }
        ensures same { self.new.input.now ≡ self.old.input.now }
    {
        self.whole = self.whole && io::write_all(1, part);
        self.from += part.len();
    }
}
