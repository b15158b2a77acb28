// What a sender links: the framework's entries as C functions. All exports stand in this crate.
#![tactic(auto)]

ghost use Rattle.std.specs.Prelude.{◌≡◌, []};
ghost use Rattle.steps.specs.Framework as Spec;
ghost use Rattle.machine.specs.Source.{tapes};
ghost use Rattle.machine.specs.Tables.{tables};
ghost use Rattle.due.specs.Due.{Lists};
ghost use Rattle.sheet.specs.Reader.{Reads};
ghost use Rattle.sheet.specs.Writer.{Writes};
ghost use Rattle.steps.specs.Words.{opening_words};
ghost use Rattle.sender.specs.Reply.{Promised, PromisedWords};

use due::Due;
use machine::tables::Tables;
use sheet::{SheetBytes, SheetRows};
use steps::{Framework, Opened, OpenedWords};

// A batch's answer without its framework: the refusal or 0, how many rows it wrote, and how many
// draws of each tape it took. The refusal is a number: it crosses to C.
#[repr(C)]
#[derive(Clone, Copy)]
pub struct Reply {
    pub refusal: u64,
    pub actions: u64,
    pub chance_used: u64,
    pub value_used: u64,
}

// The same of a batch from raw words: how many words it took. The refusal is a number: it crosses to C.
#[repr(C)]
#[derive(Clone, Copy)]
pub struct ReplyWords {
    pub refusal: u64,
    pub actions: u64,
    pub words_used: u64,
}

// The version of the interface, which stands in the name too: the header and the bindings refer to it, so one of another
// version does not link. It is raised whenever a struct that crosses or the width of a row changes.
#[unsafe(no_mangle)]
pub extern "C" fn maybenot_interface_2() -> u64
    ensures { result ≡ 2 }
{
    2
}

// Opens a framework with the machines of the lent tables.
#[unsafe(no_mangle)]
pub extern "C" fn maybenot_opening(
    max_padding_frac: f64,
    max_blocking_frac: f64,
    time: u64,
    machines: &[u64],
    states: &[u64],
    transitions: &[u64],
    values: &[f64],
) -> Opened
    ensures { result ≡ Spec.opening (tables machines.now states.now transitions.now) max_padding_frac max_blocking_frac time (tapes [] values.now) }
{
    let t = Tables {
        machines,
        states,
        transitions,
    };
    framework::opening(max_padding_frac, max_blocking_frac, time, &t, values)
}

// Opens a framework with the machines of the lent tables, drawing from raw words.
#[unsafe(no_mangle)]
pub extern "C" fn maybenot_opening_words(
    max_padding_frac: f64,
    max_blocking_frac: f64,
    time: u64,
    machines: &[u64],
    states: &[u64],
    transitions: &[u64],
    words: &[u64],
) -> OpenedWords
    ensures { result ≡ opening_words (tables machines.now states.now transitions.now) max_padding_frac max_blocking_frac time words.now }
{
    let t = Tables {
        machines,
        states,
        transitions,
    };
    framework::opening_words(max_padding_frac, max_blocking_frac, time, &t, words)
}

// A batch of events on the framework that is lent: it becomes the one that `framework::batch`
// returns, with that batch's answer and output.
#[unsafe(no_mangle)]
pub extern "C" fn maybenot_batch(
    fw: &mut Framework,
    machines: &[u64],
    states: &[u64],
    transitions: &[u64],
    time: u64,
    events: &[u64],
    chances: &[f32],
    values: &[f64],
    out: &mut [u64],
) -> Reply
    ensures { let T = tables machines.now states.now transitions.now in
        let D = tapes chances.now values.now in
        Promised fw.old T time events.now D out.old fw.new result out.new }
{
    let t = Tables {
        machines,
        states,
        transitions,
    };
    let a = framework::batch(fw, &t, time, events, chances, values, out);
    *fw = a.framework;
    Reply {
        refusal: a.refusal,
        actions: a.actions,
        chance_used: a.chance_used,
        value_used: a.value_used,
    }
}

// The same from raw words: the lent framework becomes the one that `framework::batch_words` returns.
#[unsafe(no_mangle)]
pub extern "C" fn maybenot_batch_words(
    fw: &mut Framework,
    machines: &[u64],
    states: &[u64],
    transitions: &[u64],
    time: u64,
    events: &[u64],
    words: &[u64],
    out: &mut [u64],
) -> ReplyWords
    ensures { let T = tables machines.now states.now transitions.now in
        PromisedWords fw.old T time events.now words.now out.old fw.new result out.new }
{
    let t = Tables {
        machines,
        states,
        transitions,
    };
    let a = framework::batch_words(fw, &t, time, events, words, out);
    *fw = a.framework;
    ReplyWords {
        refusal: a.refusal,
        actions: a.actions,
        words_used: a.words_used,
    }
}

// Whether every machine of the lent framework has ended; true with no machines.
#[unsafe(no_mangle)]
pub extern "C" fn maybenot_all_machines_ended(fw: &Framework) -> bool
    ensures { result ≡ Spec.all_machines_ended fw.now }
{
    framework::all_machines_ended(fw)
}

// Reads a sheet into the lent tables.
#[unsafe(no_mangle)]
pub extern "C" fn maybenot_sheet_read(
    sheet: &[u8],
    machines: &mut [u64],
    states: &mut [u64],
    transitions: &mut [u64],
) -> SheetRows
    ensures { Reads sheet.now machines.old states.old transitions.old
        result machines.new states.new transitions.new }
{
    sheet::read(sheet, machines, states, transitions)
}

// Writes the sheet of the lent tables.
#[unsafe(no_mangle)]
pub extern "C" fn maybenot_sheet_write(
    machines: &[u64],
    states: &[u64],
    transitions: &[u64],
    sheet: &mut [u8],
) -> SheetBytes
    ensures { Writes machines.now states.now transitions.now sheet.old
        result sheet.new }
{
    let t = Tables {
        machines,
        states,
        transitions,
    };
    sheet::write(&t, sheet)
}

// Puts the rows of a batch into out, in the order in which they fall due.
#[unsafe(no_mangle)]
pub extern "C" fn maybenot_due_list(rows: &[u64], out: &mut [u64]) -> Due
    ensures { Lists rows.now out.old result out.new }
{
    due::due_list(rows, out)
}
