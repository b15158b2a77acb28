// The tables as a text sheet (document 02, job 1): a line for each row, in columns. A reader into three lent tables, and a
// writer.
#![tactic(auto)]

ghost use Rattle.std.specs.Prelude.{◌≡◌};
ghost use Rattle.machine.specs.Tables.{lent_tables};
ghost use Rattle.sheet.specs.Reader.{no_rows, Reads};
ghost use Rattle.sheet.specs.Writer.{Writes};
ghost use Rattle.sheet.specs.Steps.{counted};

use machine::tables::Tables;
use reading::Rows;

pub mod line; // the lines of the three kinds
mod reading; // a sheet to its tables
mod writing; // the tables to their sheet

// What the reader answers: the refusal or 0, and how many rows it read into each table. Numbers: it crosses to C.
#[repr(C)]
#[derive(Clone, Copy)]
pub struct SheetRows {
    pub refusal: u64,
    pub machines: u64,
    pub states: u64,
    pub transitions: u64,
}

impl From<Rows> for SheetRows {
    ghost from_gives = { λ rows r. r ≡ counted rows };

    fn from(rows: Rows) -> SheetRows {
        SheetRows {
            refusal: 0,
            machines: rows.machines as u64,
            states: rows.states as u64,
            transitions: rows.transitions as u64,
        }
    }
}

// What the writer answers: the refusal or 0, and how many bytes it wrote. Numbers: it crosses to C.
#[repr(C)]
#[derive(Clone, Copy)]
pub struct SheetBytes {
    pub refusal: u64,
    pub bytes: u64,
}

// Reads a sheet into the lent tables.
pub fn read(
    sheet: &[u8],
    machines: &mut [u64],
    states: &mut [u64],
    transitions: &mut [u64],
) -> SheetRows
    ensures { Reads sheet.now machines.old states.old transitions.old
        result machines.new states.new transitions.new }
{
    match reading::read_rows(sheet, machines, states, transitions) {
        Ok(rows) => rows.into(),
        Err(refusal) => unread(refusal.into()),
    }
}

// The answer of a refused sheet, by the number of the refusal: the answer crosses to C.
pub fn unread(refusal: u64) -> SheetRows
    ensures { result ≡ no_rows refusal }
{
    SheetRows {
        refusal,
        machines: 0,
        states: 0,
        transitions: 0,
    }
}

// Writes the sheet of the tables.
pub fn write(tables: &Tables, sheet: &mut [u8]) -> SheetBytes
    ensures { let T = lent_tables tables.now in
        Writes T.machines T.states T.transitions sheet.old result sheet.new }
{
    match writing::write_sheet(tables, sheet) {
        Ok(bytes) => SheetBytes {
            refusal: 0,
            bytes: bytes as u64,
        },
        Err(refusal) => SheetBytes {
            refusal: refusal.into(),
            bytes: 0,
        },
    }
}
