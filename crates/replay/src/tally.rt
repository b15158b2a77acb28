// What was compared, and what differed.
use super::damage::Damage;
use corpus::ANSWER;

// What a call differed in.
#[derive(Clone, Copy)]
pub enum Difference {
    // a word of its answer: the first place (answer.rt) at which they differ
    Word(usize),
    // output words behind the rows were written
    Output,
    // the ended number, or all_machines_ended
    Ended,
    // a start state without an action has a limit
    Limit,
    // the corpus itself is cut, or of a kind that is not known here
    Corpus,
}

// As a line prints it: the places are below ANSWER.
impl From<Difference> for u64 {
    fn from(difference: Difference) -> u64 {
        match difference {
            Difference::Word(place) => place as u64,
            Difference::Output => ANSWER as u64 + 1,
            Difference::Ended => ANSWER as u64 + 2,
            Difference::Limit => ANSWER as u64 + 3,
            Difference::Corpus => ANSWER as u64 + 4,
        }
    }
}

// At most so many differences are printed.
const PRINTED: u64 = 10;

// Cases and calls of the corpus, calls of our own on damaged input, and how many of both agreed.
#[derive(Clone, Copy, Default)]
pub struct Tally {
    cases: u64,
    calls: u64,
    damaged: u64,
    agreed: u64,
    differed: u64,
}

impl Tally {
    pub fn next_case(&mut self) {
        self.cases = self.cases.saturating_add(1);
    }

    // A call of the corpus, by its number.
    pub fn recorded(&mut self, call: u64, judged: Result<(), Difference>) {
        self.judged(b" call ", call, judged);
        self.calls = self.calls.saturating_add(1);
    }

    // A call on damaged input.
    pub fn damaged(&mut self, damage: Damage, judged: Result<(), Difference>) {
        self.judged(b" damage ", damage as u64, judged);
        self.damaged = self.damaged.saturating_add(1);
    }

    fn judged(&mut self, what: &[u8], number: u64, judged: Result<(), Difference>) {
        let Err(difference) = judged else {
            self.agreed = self.agreed.saturating_add(1);
            return;
        };
        if self.differed < PRINTED {
            print_number(b"case ", self.cases);
            print_number(what, number);
            print_line(b" differs at ", difference.into());
        }
        self.differed = self.differed.saturating_add(1);
    }

    pub fn print(&self) {
        print_line(b"cases ", self.cases);
        print_line(b"calls ", self.calls);
        print_line(b"damaged calls ", self.damaged);
        print_line(b"agreed ", self.agreed);
        print_line(b"differed ", self.differed);
    }
}

fn print_number(label: &[u8], n: u64) {
    io::write_all(1, label);
    io::print_decimal(1, n);
}

fn print_line(label: &[u8], n: u64) {
    print_number(label, n);
    io::write_all(1, b"\n");
}
