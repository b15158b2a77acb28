// Why a call is refused. To C a refusal is a number, and 0 where the call was accepted; within the
// library it is the error of a `Result`.
#![tactic(auto)]

ghost use Rattle.std.specs.Prelude.{◌≡◌};
ghost use Rattle.refusal.specs.Refusal.{number, refusal_of};

// In the order of their numbers, from 1 on.
#[derive(Clone, Copy, Debug, PartialEq, Eq)]
pub enum Refusal {
    // the framework's own fractions
    PaddingFraction,
    BlockingFraction,
    // a table that is not whole rows, or has too many
    NotWholeRows,
    // a machine's fractions, and its states
    MachinePadding,
    MachineBlocking,
    StateCount,
    StatesBeyondTable,
    // a state's transitions
    RowBeyondTable,
    ProbabilityWord,
    UnknownTarget,
    RepeatedTarget,
    Probability,
    ProbabilitySum,
    // a code in a used field, and a distribution's bounds
    UnknownCode,
    InvalidDistribution,
    // a draw beyond the tape's end, and one that is not fit
    NoDraw,
    UnfitDraw,
    // a framework that does not fit the tables, events, an output without room
    ForeignFramework,
    UnknownEvents,
    NoRoom,
    // an input of the printed run
    BadInput,
    // a line of a sheet, and a table or sheet without room for what was read or is to be written
    BadLine,
    NoSheetRoom,
    // a distribution that is drawn outside, in a call from raw words
    DrawnOutside,
}

impl From<Refusal> for u64 {
    ghost from_gives = { λ r n. n ≡ number r };

    fn from(r: Refusal) -> u64 {
        match r {
            Refusal::PaddingFraction => 1,
            Refusal::BlockingFraction => 2,
            Refusal::NotWholeRows => 3,
            Refusal::MachinePadding => 4,
            Refusal::MachineBlocking => 5,
            Refusal::StateCount => 6,
            Refusal::StatesBeyondTable => 7,
            Refusal::RowBeyondTable => 8,
            Refusal::ProbabilityWord => 9,
            Refusal::UnknownTarget => 10,
            Refusal::RepeatedTarget => 11,
            Refusal::Probability => 12,
            Refusal::ProbabilitySum => 13,
            Refusal::UnknownCode => 14,
            Refusal::InvalidDistribution => 15,
            Refusal::NoDraw => 16,
            Refusal::UnfitDraw => 17,
            Refusal::ForeignFramework => 18,
            Refusal::UnknownEvents => 19,
            Refusal::NoRoom => 20,
            Refusal::BadInput => 21,
            Refusal::BadLine => 22,
            Refusal::NoSheetRoom => 23,
            Refusal::DrawnOutside => 24,
        }
    }
}

// The number of an answer: 0 where the call was accepted.
pub fn number(answer: Result<(), Refusal>) -> u64
    ensures { result ≡ refusal_of answer }
{
    match answer {
        Ok(()) => 0,
        Err(r) => r.into(),
    }
}
