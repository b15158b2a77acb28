// The tables to their sheet.
ghost use Rattle.std.specs.Prelude.{◌≡◌, ◌/◌, ◌≤◌, leb, length};
ghost use Rattle.machine.specs.Constants.{machine_words, state_words, transition_words};
ghost use Rattle.machine.specs.Tables.{lent_tables};
ghost use Rattle.sheet.specs.Sheet.{bytes_of, sheet_of};
ghost use Rattle.sheet.specs.Writer.{over, whole_rows, Writes};
ghost use Rattle.sheet.specs.Steps.{rows_of, written_answer};

use super::line::{MACHINE, STATE, TRANSITION};
use super::reading::Rows;
use lines::writing::put_lines;
use machine::tables::Tables;
use refusal::Refusal;

// How many rows the tables have.
fn rows_of(tables: &Tables) -> Rows
    ensures { let T = lent_tables tables.now in
        result ≡ rows_of T.machines T.states T.transitions }
{
    Rows {
        machines: tables.machines.len() / MACHINE.words,
        states: tables.states.len() / STATE.words,
        transitions: tables.transitions.len() / TRANSITION.words,
    }
}

// Puts the sheet of the tables, which has room, at the start of sheet, and answers how many bytes it has.
pub fn put_sheet(tables: &Tables, sheet: &mut [u8]) -> usize
    requires { let T = lent_tables tables.now in
        bytes_of (length T.machines / machine_words) (length T.states / state_words) (length T.transitions / transition_words) ≤ length sheet.old }
    ensures { let T = lent_tables tables.now in
        let text = sheet_of T.machines T.states T.transitions in
        (result ≡ length text) × (sheet.new ≡ over text sheet.old) }
{
    let rows = rows_of(tables);
    let behind = MACHINE.size * rows.machines;
    let rest = behind + STATE.size * rows.states;
    put_lines(MACHINE, rows.machines, tables.machines, sheet);
    put_lines(STATE, rows.states, tables.states, &mut sheet[behind..]);
    put_lines(
        TRANSITION,
        rows.transitions,
        tables.transitions,
        &mut sheet[rest..],
    );
    rest + TRANSITION.size * rows.transitions
}

// Whether each table is whole rows.
#[tactic(auto, unfolding(crate::specs::Writer::whole_rows))]
fn whole_rows(tables: &Tables) -> bool
    ensures { let T = lent_tables tables.now in
        result ≡ whole_rows (length T.machines) (length T.states) (length T.transitions) }
{
    tables.machines.len() % MACHINE.words == 0
        && tables.states.len() % STATE.words == 0
        && tables.transitions.len() % TRANSITION.words == 0
}

// Whether the lines of so many rows fit into so many bytes. What is left of the bytes keeps a sum from wrapping.
fn lines_fit(rows: Rows, bytes: usize) -> bool
    ensures { result ≡ leb (bytes_of rows.machines rows.states rows.transitions) bytes }
{
    if bytes / MACHINE.size < rows.machines {
        return false;
    }
    let left = bytes - MACHINE.size * rows.machines;
    if left / STATE.size < rows.states {
        return false;
    }
    let rest = left - STATE.size * rows.states;
    rows.transitions <= rest / TRANSITION.size
}

// Writes the sheet of the tables, and answers how many bytes it has.
pub fn write_sheet(tables: &Tables, sheet: &mut [u8]) -> Result<usize, Refusal>
    ensures { let T = lent_tables tables.now in
        Writes T.machines T.states T.transitions sheet.old (written_answer result) sheet.new }
{
    if !whole_rows(tables) {
        return Err(Refusal::NotWholeRows);
    }
    if !lines_fit(rows_of(tables), sheet.len()) {
        return Err(Refusal::NoSheetRoom);
    }
    Ok(put_sheet(tables, sheet))
}
