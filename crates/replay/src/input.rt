// The library's calls on an input of linkrun.
use machine::source::Tapes;
use machine::tables::Tables;
use steps::{Answer, Framework, Opened};
use stream::Input;

// The library's opening on tables, with the fractions of the input.
pub fn opening(input: &Input, tables: &Tables, time: u64, values: &[f64]) -> Opened {
    framework::opening(
        numbers::f64_of_word(stream::word(input.words, 0)),
        numbers::f64_of_word(stream::word(input.words, 1)),
        time,
        tables,
        values,
    )
}

// What so many draws leave of two tapes.
pub fn behind<'a>(tapes: Tapes<'a>, chance_used: u64, value_used: u64) -> Tapes<'a> {
    let chances = chance_used.min(tapes.chances.len() as u64) as usize;
    let values = value_used.min(tapes.values.len() as u64) as usize;
    Tapes {
        chances: &tapes.chances[chances..],
        values: &tapes.values[values..],
    }
}

// What a batch is called with, but for its output.
#[derive(Clone, Copy)]
pub struct Batch<'a> {
    pub framework: Framework,
    pub tables: Tables<'a>,
    pub time: u64,
    pub events: &'a [u64],
    pub tapes: Tapes<'a>,
}

impl<'a> Batch<'a> {
    // The library's batch.
    pub fn run(&self, out: &mut [u64]) -> Answer {
        framework::batch(
            &self.framework,
            &self.tables,
            self.time,
            self.events,
            self.tapes.chances,
            self.tapes.values,
            out,
        )
    }
}
