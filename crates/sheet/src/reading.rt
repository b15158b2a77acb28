// A sheet to its tables: the pass that judges, and the pass that fills the tables.
ghost use Rattle.std.specs.Prelude.{◌≡◌, ◌++◌, ◌*◌, ◌≤◌, length, drop, IfOk};
ghost use Rattle.machine.specs.Constants.{machine_words, state_words, transition_words};
ghost use Rattle.lines.specs.Lines.{table_of};
ghost use Rattle.sheet.specs.Sheet.{bytes_of};
ghost use Rattle.sheet.specs.Reader.{behind_machines, behind_states, form_of, rows_in, room_for, Reads};
ghost use Rattle.sheet.specs.Steps.{judged, read_answer};

use super::line::{MACHINE, STATE, TRANSITION};
use lines::reading::{lines, put_rows};
use refusal::Refusal;

// How many rows of each kind a sheet has.
#[derive(Clone, Copy)]
pub struct Rows {
    pub machines: usize,
    pub states: usize,
    pub transitions: usize,
}

// Judges the whole sheet: the lines of each kind stand in their order, and are all of it.
pub fn form_of(sheet: &[u8]) -> Result<Rows, Refusal>
    ensures is { result ≡ judged sheet.now }
    ensures inside { IfOk result (λ r. bytes_of r.machines r.states r.transitions ≤ length sheet.now) }
{
    let machines = lines(sheet, MACHINE);
    let behind = &sheet[MACHINE.size * machines..];
    let states = lines(behind, STATE);
    let rest = &behind[STATE.size * states..];
    let transitions = lines(rest, TRANSITION);
    if rest.len() != TRANSITION.size * transitions {
        return Err(Refusal::BadLine);
    }
    Ok(Rows {
        machines,
        states,
        transitions,
    })
}

// Puts the rows of a sheet at the start of the tables, which have room for them.
pub fn put_tables(
    sheet: &[u8],
    rows: Rows,
    machines: &mut [u64],
    states: &mut [u64],
    transitions: &mut [u64],
)
    requires { (rows ≡ rows_in (form_of sheet.now)) × (bytes_of rows.machines rows.states rows.transitions ≤ length sheet.now)
        × (machine_words * rows.machines ≤ length machines.old) × (state_words * rows.states ≤ length states.old)
        × (transition_words * rows.transitions ≤ length transitions.old) }
    ensures { (machines.new
        ≡ table_of machine_words rows.machines sheet.now ++ drop (machine_words * rows.machines) machines.old)
        × (states.new
        ≡ table_of state_words rows.states (behind_machines sheet.now) ++ drop (state_words * rows.states) states.old)
        × (transitions.new
        ≡ table_of transition_words rows.transitions (behind_states sheet.now) ++ drop (transition_words * rows.transitions) transitions.old) }
{
    let behind = MACHINE.size * rows.machines;
    let rest = behind + STATE.size * rows.states;
    put_rows(sheet, rows.machines, MACHINE, machines);
    put_rows(&sheet[behind..], rows.states, STATE, states);
    put_rows(&sheet[rest..], rows.transitions, TRANSITION, transitions);
}

// Whether so many rows fit into the three tables.
#[tactic(auto, unfolding(crate::specs::Reader::room_for))]
fn has_room(rows: Rows, machines: usize, states: usize, transitions: usize) -> bool
    ensures { result ≡ room_for rows machines states transitions }
{
    rows.machines <= machines / MACHINE.words
        && rows.states <= states / STATE.words
        && rows.transitions <= transitions / TRANSITION.words
}

// Reads a sheet into the lent tables, and answers how many rows of each.
pub fn read_rows(
    sheet: &[u8],
    machines: &mut [u64],
    states: &mut [u64],
    transitions: &mut [u64],
) -> Result<Rows, Refusal>
    ensures { Reads sheet.now machines.old states.old transitions.old
        (read_answer result) machines.new states.new transitions.new }
{
    let rows = form_of(sheet)?;
    if !has_room(rows, machines.len(), states.len(), transitions.len()) {
        return Err(Refusal::NoSheetRoom);
    }
    put_tables(sheet, rows, machines, states, transitions);
    Ok(rows)
}
