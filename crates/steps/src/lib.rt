// The types of framework.rs. The definitions of its steps stand in specs/; the code that equals them is in `counters`,
// `limits`, `moves`, `transition`, `account`, `events`, `signals` and `framework`. Records are made of parts, so that
// what a step changes is one of them.
#![tactic(auto)]

ghost use Rattle.std.specs.Prelude.{◌<◌};
ghost use Rattle.machine.specs.Constants.{machine_max};

use machine::source::Place;

// What events count for one machine. Durations are in microseconds.
#[repr(C)]
#[derive(Clone, Copy)]
pub struct Counts {
    pub padding_sent: u64,
    pub normal_sent: u64,
    pub blocking_duration: u64,
}

// A machine's counters.
#[repr(C)]
#[derive(Clone, Copy)]
pub struct Counters {
    pub counter_a: u64,
    pub counter_b: u64,
}

// One machine's state (framework.rs: MachineRuntime). Times are in microseconds.
#[repr(C)]
#[derive(Clone, Copy)]
pub struct MachineRuntime {
    pub current_state: u64,
    pub state_limit: u64,
    pub counts: Counts,
    pub machine_start: u64,
    pub allowed_blocked_microsec: u64,
    pub counters: Counters,
}

// What an opening fixes: the framework's fractions, and when it was opened.
#[repr(C)]
#[derive(Clone, Copy)]
pub struct Fixed {
    pub max_padding_frac: f64,
    pub max_blocking_frac: f64,
    pub framework_start: u64,
}

// What events count for the framework. Blocking is on where `blocking_active` is not 0.
#[repr(C)]
#[derive(Clone, Copy)]
pub struct Totals {
    pub normal_sent_packets: u64,
    pub padding_sent_packets: u64,
    pub blocking_duration: u64,
    pub blocking_started: u64,
    pub blocking_active: u64,
}

// An instance of the framework, as the sender keeps it between calls. It holds no enum and no bool, so every pattern of words has
// a meaning: `ended` is how many machines are in STATE_END, `signal_pending` is 0 for none, 1 for all machines, 2 + m for all but
// machine m. The machines stand first: a copy of them alone is then as long as they are.
#[repr(C)]
#[derive(Clone, Copy)]
pub struct Framework {
    pub runtime: [MachineRuntime; 16],
    pub machines: u64,
    pub ended: u64,
    pub current_time: u64,
    pub signal_pending: u64,
    pub fixed: Fixed,
    pub totals: Totals,
}

// An action that a machine has scheduled (framework.rs: TriggerAction), as an output row has it.
#[derive(Clone, Copy)]
pub struct TriggerAction {
    pub kind: u64,
    pub flags: u64,
    pub timer: u64,
    pub timeout: u64,
    pub duration: u64,
}

// Which counters have reported zero in this call (framework.rs: counter_zeroed_once).
#[derive(Clone, Copy)]
pub struct Zeroed {
    pub counter_a: bool,
    pub counter_b: bool,
}

// What one call shares between all machines: the pending signal, where the tapes go on, and which counters have reported zero.
#[derive(Clone, Copy)]
pub struct Shared {
    pub signal_pending: u64,
    pub place: Place,
    pub zeroed: Zeroed,
}

// What a machine's transition reads and does not change: its number and its row's limits, then the framework's own numbers, flat,
// so that it is lent on without a copy. The row's fractions are its words, since most transitions do not judge them.
#[derive(Clone, Copy)]
pub struct Context {
    pub machine: u64,
    pub allowed_padding_packets: u64,
    pub machine_padding_bits: u64,
    pub machine_blocking_bits: u64,
    pub current_time: u64,
    pub max_padding_frac: f64,
    pub max_blocking_frac: f64,
    pub framework_start: u64,
    pub normal_sent_packets: u64,
    pub padding_sent_packets: u64,
    pub blocking_duration: u64,
    pub blocking_started: u64,
    pub blocking_active: u64,
}

// What a machine's steps read and do not change: its own part of the state table, the transition table, the source of its draws, and
// its context. The machine's number is below the most machines.
#[derive(Drop)]
pub struct Env<'a, D> {
    pub rows: &'a [u64],
    pub transitions: &'a [u64],
    pub draws: &'a D,
    pub context: Context,
    ghost known: { context.machine < machine_max },
}

// A machine on its way through a step, and whether its state has changed (framework.rs: StateChange).
#[derive(Clone, Copy)]
pub struct Step {
    pub runtime: MachineRuntime,
    pub shared: Shared,
    pub action: Option<TriggerAction>,
    pub changed: bool,
}

// A counter after its update: its value, where the tapes go on, whether it has reported zero in this call, and whether it does
// so now.
#[derive(Clone, Copy)]
pub struct Counter {
    pub value: u64,
    pub at: Place,
    pub zeroed: bool,
    pub reports: bool,
}

// A row's counters after the update of some of them: their values, where the tapes go on, which have reported zero in this call,
// and whether one does so now.
#[derive(Clone, Copy)]
pub struct Tally {
    pub counters: Counters,
    pub place: Place,
    pub zeroed: Zeroed,
    pub reports: bool,
}

// A machine after its counter update, and what update_counter answers: whether an action may be scheduled, and whether the state
// changed on the way.
#[derive(Clone, Copy)]
pub struct Update {
    pub runtime: MachineRuntime,
    pub shared: Shared,
    pub action: Option<TriggerAction>,
    pub allow_schedule: bool,
    pub state_changed: bool,
}

// A run of events or signals over all machines.
#[derive(Clone, Copy)]
pub struct Run {
    pub framework: Framework,
    pub actions: [Option<TriggerAction>; 16],
    pub shared: Shared,
}

// The answer of an opening: the refusal or 0, how many draws of each tape it took, and the framework.
// The refusal is a number beside them: the struct crosses to C.
#[repr(C)]
#[derive(Clone, Copy)]
pub struct Opened {
    pub refusal: u64,
    pub chance_used: u64,
    pub value_used: u64,
    pub framework: Framework,
}

// The answer of a batch: the refusal or 0, how many rows it wrote, how many draws of each tape it took, and the framework.
// The refusal is a number beside them: the struct crosses to C.
#[repr(C)]
#[derive(Clone, Copy)]
pub struct Answer {
    pub refusal: u64,
    pub actions: u64,
    pub chance_used: u64,
    pub value_used: u64,
    pub framework: Framework,
}

// The answer of an opening from raw words: the refusal or 0, how many words it took, and the framework.
// The refusal is a number beside them: the struct crosses to C.
#[repr(C)]
#[derive(Clone, Copy)]
pub struct OpenedWords {
    pub refusal: u64,
    pub words_used: u64,
    pub framework: Framework,
}

// The answer of a batch from raw words: the refusal or 0, how many rows it wrote, how many words it took, and the framework.
// The refusal is a number beside them: the struct crosses to C.
#[repr(C)]
#[derive(Clone, Copy)]
pub struct AnswerWords {
    pub refusal: u64,
    pub actions: u64,
    pub words_used: u64,
    pub framework: Framework,
}
