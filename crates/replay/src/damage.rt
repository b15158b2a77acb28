// Calls that no input of linkrun can make: each is refused with its number and changes nothing.
ghost use Rattle.std.specs.Prelude.{◌≤◌};

use super::answer::at_most_max;
use super::input::{self, Batch};
use super::judge::{MARK, refused_call, refused_opening};
use super::tally::{Difference, Tally};
use corpus::OUTPUT_WORDS;
use machine::constants::{MACHINE_WORDS, NUM_STATES, ROW_WORDS};
use machine::event::NORMAL_SENT;
use machine::source::Tapes;
use machine::tables::Tables;
use refusal::Refusal;
use steps::{Framework, Opened};
use stream::Input;

// The damages, in the order of the numbers by which a difference prints them, from 1 on.
#[derive(Clone, Copy, PartialEq, Eq)]
pub enum Damage {
    // a table one word short, in a batch and in an opening
    ShortMachines = 1,
    ShortStates,
    ShortTransitions,
    ShortOpening,
    // a framework with a machine more, with a state one past its machine's last, with a pending signal
    // that leaves out an unknown machine, and with an ended number one too large
    MachineMore,
    StateBeyond,
    SignalBeyond,
    EndedMore,
    // half an event, and a kind of 10
    HalfEvent,
    KindTen,
    // an output one word short
    ShortOutput,
    // tables that the opening refused, which a batch refuses the same way
    RefusedTables,
    // the framework of an opening that was refused for its draws
    NoFramework,
}

// The damages of an accepted opening's framework.
const OF_ACCEPTED: [Damage; 11] = [
    Damage::ShortMachines,
    Damage::ShortStates,
    Damage::ShortTransitions,
    Damage::ShortOpening,
    Damage::MachineMore,
    Damage::StateBeyond,
    Damage::SignalBeyond,
    Damage::EndedMore,
    Damage::HalfEvent,
    Damage::KindTen,
    Damage::ShortOutput,
];

impl Damage {
    // Whether a call on these tables can be damaged so.
    fn applies(self, tables: Tables) -> bool {
        match self {
            Damage::ShortStates => !tables.states.is_empty(),
            Damage::ShortTransitions => !tables.transitions.is_empty(),
            Damage::ShortMachines
            | Damage::ShortOpening
            | Damage::StateBeyond
            | Damage::ShortOutput => !tables.machines.is_empty(),
            _ => true,
        }
    }

    fn refusal(self) -> Refusal {
        match self {
            Damage::MachineMore
            | Damage::StateBeyond
            | Damage::SignalBeyond
            | Damage::EndedMore
            | Damage::NoFramework => Refusal::ForeignFramework,
            Damage::HalfEvent | Damage::KindTen => Refusal::UnknownEvents,
            Damage::ShortOutput => Refusal::NoRoom,
            _ => Refusal::NotWholeRows,
        }
    }

    fn tables<'a>(self, whole: Tables<'a>) -> Tables<'a> {
        let mut tables = whole;
        match self {
            Damage::ShortMachines => tables.machines = but_last(whole.machines),
            Damage::ShortStates => tables.states = but_last(whole.states),
            Damage::ShortTransitions => tables.transitions = but_last(whole.transitions),
            _ => {}
        }
        tables
    }

    fn framework(self, fw: &Framework, machines: &[u64]) -> Framework {
        let mut damaged = *fw;
        match self {
            Damage::MachineMore => damaged.machines = fw.machines.saturating_add(1),
            Damage::StateBeyond => put_state_beyond(&mut damaged, machines),
            Damage::SignalBeyond => damaged.signal_pending = fw.machines.saturating_add(2),
            Damage::EndedMore => damaged.ended = fw.ended.saturating_add(1),
            _ => {}
        }
        damaged
    }

    // The words of an event NormalSent, half of one behind it, or one of kind 10.
    fn events(self) -> &'static [u64] {
        match self {
            Damage::HalfEvent => &[NORMAL_SENT, 0, 10],
            Damage::KindTen => &[NORMAL_SENT, 0, 10, 0],
            _ => &[NORMAL_SENT, 0],
        }
    }

    // The words of the output that a call for so many machines is lent.
    fn room(self, machines: u64) -> usize
        ensures { result ≤ OUTPUT_WORDS }
    {
        let needed = ROW_WORDS * at_most_max(machines);
        if self == Damage::ShortOutput && 0 < needed {
            needed - 1
        } else {
            OUTPUT_WORDS
        }
    }
}

// A table without its last word.
fn but_last(table: &[u64]) -> &[u64] {
    match table.split_last() {
        Some((_, others)) => others,
        None => table,
    }
}

// Puts the last machine in a state one past its last.
fn put_state_beyond(fw: &mut Framework, machines: &[u64]) {
    let Some(m) = at_most_max(fw.machines).checked_sub(1) else {
        return;
    };
    fw.runtime[m].current_state = stream::word(machines, MACHINE_WORDS * m + NUM_STATES);
}

// What a batch with this damage differs in from one that is refused so.
fn batch(damage: Damage, fw: &Framework, tables: Tables, refusal: u64) -> Result<(), Difference> {
    let damaged = Batch {
        framework: damage.framework(fw, tables.machines),
        tables: damage.tables(tables),
        time: fw.current_time.saturating_add(1),
        events: damage.events(),
        tapes: Tapes {
            chances: &[0.5; 16],
            values: &[1.0; 16],
        },
    };
    let mut out = [MARK; OUTPUT_WORDS];
    let a = damaged.run(&mut out[..damage.room(fw.machines)]);
    refused_call(refusal, &damaged.framework, &a, &out)
}

// The same of an opening whose machine table is a word short.
fn opening(lent: &Input, tables: Tables, refusal: u64) -> Result<(), Difference> {
    let damaged = Damage::ShortMachines.tables(tables);
    let o = input::opening(lent, &damaged, 1, &[1.0; 16]);
    refused_opening(refusal, &o)
}

fn on_accepted(tally: &mut Tally, fw: &Framework, lent: &Input) {
    let tables = lent.tables();
    for damage in OF_ACCEPTED {
        if damage.applies(tables) {
            let refusal = damage.refusal().into();
            let judged = if damage == Damage::ShortOpening {
                opening(lent, tables, refusal)
            } else {
                batch(damage, fw, tables, refusal)
            };
            tally.damaged(damage, judged);
        }
    }
}

// After the opening of an input.
pub fn damaged_calls(tally: &mut Tally, lent: &Input, o: &Opened) {
    let fw = &o.framework;
    let tables = lent.tables();
    // a number: it crosses to C
    match o.refusal {
        0 => on_accepted(tally, fw, lent),
        // the framework's own fractions, which a batch does not have
        1 | 2 => {}
        3..=15 => {
            let damage = Damage::RefusedTables;
            tally.damaged(damage, batch(damage, fw, tables, o.refusal));
        }
        _ => {
            let damage = Damage::NoFramework;
            tally.damaged(damage, batch(damage, fw, tables, damage.refusal().into()));
        }
    }
}
