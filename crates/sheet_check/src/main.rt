// Judges a sheet at a desk: a sheet on standard input, one line on standard output.
#![tactic(auto)]

ghost use Rattle.std.specs.Prelude.{◌≡◌, ◌++◌, ◌≤◌, length, drop};
ghost use Rattle.sheet_check.specs.Verdict.{verdict_line, judged_line, report_line, line_length};

use machine::constants::{MACHINE_WORDS, STATE_WORDS, TRANSITION_WORDS};
use machine::tables::Tables;
use refusal::{Refusal, number};
use sheet::SheetRows;
use sheet::line::{MACHINE_LINE, STATE_LINE, TRANSITION_LINE};

// The largest sheet that is read, in bytes, and the words of as many rows as it can have.
const SHEET: usize = 262144;

const MACHINES: usize = SHEET / MACHINE_LINE * MACHINE_WORDS;

const STATES: usize = SHEET / STATE_LINE * STATE_WORDS;

const TRANSITIONS: usize = SHEET / TRANSITION_LINE * TRANSITION_WORDS;

// Puts the line of an answer, and of the tables' refusal, at the start of line.
#[tactic(auto, using(crate::proofs::Judged::lined))]
fn verdict_line(line: &mut [u8], r: SheetRows, tables: u64)
    requires { line_length ≤ length line.old }
    ensures { line.new ≡ verdict_line r tables ++ drop line_length line.old }
{
    columns::put_number(line, 0, 4, r.refusal);
    columns::put_number(line, 4, 8, r.machines);
    columns::put_number(line, 12, 8, r.states);
    columns::put_number(line, 20, 8, r.transitions);
    columns::put_number(line, 28, 4, tables);
    line[32] = b'\n';
}

// Reads a sheet into the lent tables, judges the rows read, and puts the line at the start of line.
#[tactic(auto, using(crate::proofs::Judged::machines_inside, crate::proofs::Judged::states_inside, crate::proofs::Judged::transitions_inside))]
fn judge(
    sheet: &[u8],
    machines: &mut [u64],
    states: &mut [u64],
    transitions: &mut [u64],
    line: &mut [u8],
)
    requires { line_length ≤ length line.old }
    ensures { line.new
        ≡ judged_line sheet.now machines.old states.old transitions.old
        ++ drop line_length line.old }
{
    let r = sheet::read(sheet, machines, states, transitions);
    let m = MACHINE_WORDS * r.machines as usize;
    let s = STATE_WORDS * r.states as usize;
    let t = TRANSITION_WORDS * r.transitions as usize;
    let read = Tables {
        machines: &machines[..m],
        states: &states[..s],
        transitions: &transitions[..t],
    };
    verdict_line(line, r, number(tables::check_tables(&read)));
}

// The line of a sheet of any length.
#[tactic(auto, unfolding(crate::specs::Verdict::report_line))]
fn report(bytes: &[u8], line: &mut [u8])
    requires { line_length ≤ length line.old }
    ensures { line.new ≡ report_line bytes.now ++ drop line_length line.old }
{
    if SHEET < bytes.len() {
        verdict_line(line, sheet::unread(Refusal::NoSheetRoom.into()), 0);
        return;
    }
    let mut machines = [0u64; MACHINES];
    let mut states = [0u64; STATES];
    let mut transitions = [0u64; TRANSITIONS];
    judge(bytes, &mut machines, &mut states, &mut transitions, line);
}

fn main() {
    let mut bytes = [0u8; SHEET + 1];
    let mut line = [0u8; 33];
    let n = io::read_full(0, &mut bytes);
    report(&bytes[..n], &mut line);
    io::write_all(1, &line);
}
