// event.rs: the events that a state has transitions for.
ghost use Rattle.std.specs.Prelude.{◌≡◌, ◌≤◌};
ghost use Rattle.machine.specs.Event.{event_of, timer_end_kind};

// `Event`, in its order. Numbers: they are places in a state's row, and C lends a batch's events as words.
pub const NORMAL_RECV: u64 = 0;

pub const PADDING_RECV: u64 = 1;

pub const TUNNEL_RECV: u64 = 2;

pub const NORMAL_SENT: u64 = 3;

pub const PADDING_SENT: u64 = 4;

pub const TUNNEL_SENT: u64 = 5;

pub const BLOCKING_BEGIN: u64 = 6;

pub const BLOCKING_END: u64 = 7;

pub const LIMIT_REACHED: u64 = 8;

pub const COUNTER_ZERO: u64 = 9;

pub const TIMER_BEGIN: u64 = 10;

pub const TIMER_END: u64 = 11;

pub const SIGNAL: u64 = 12;

// The last two kinds of `TriggerEvent`, which lacks LimitReached and CounterZero. Its first eight
// are those of `Event`.
pub const TIMER_BEGIN_KIND: u64 = 8;

pub const TIMER_END_KIND: u64 = 9;

// The `Event` of a `TriggerEvent` kind.
pub fn event_of(kind: u64) -> u64
    requires { kind ≤ timer_end_kind }
    ensures { result ≡ event_of kind }
{
    if kind < LIMIT_REACHED { kind } else { kind + 2 }
}
