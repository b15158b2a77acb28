// A machine's turn after its choice, on the short way: to a state of the machine, where no counter
// reports zero, no draw is refused and no limit falls. A machine's turn tries it first; where it does
// not hold, `transition::going` says what follows. It is called in one place, so the compiler works it
// out there; it answers what it may change and no more, since each word of an answer is copied:
// docs/PERFORMANCE.md has what that saves.
ghost use Rattle.std.specs.Prelude.{◌≡◌};
ghost use Rattle.moves.specs.Short as Spec;

use super::action::schedule_action;
use super::step::enter;
use counters::update_counters;
use limits::below_action_limits;
use machine::constants::{STATE_END, STATE_SIGNAL};
use machine::source::{Draws, Place};
use machine::state::state_row;
use steps::{Context, Counters, MachineRuntime, Shared, Tally, TriggerAction, Zeroed};

// What a move to a state may change of its machine, and of what the call shares.
#[derive(Clone, Copy)]
pub struct Moved {
    pub current_state: u64,
    pub state_limit: u64,
    pub counters: Counters,
    pub place: Place,
    pub zeroed: Zeroed,
}

// The machine's move, with the pending action kept or another one set; or that the long way has to
// be taken. Three answers, of which none is an error: `Elsewhere` says nothing of the turn.
#[derive(Clone, Copy)]
pub enum Short {
    Elsewhere,
    Kept(Moved),
    Acted(TriggerAction, Moved),
}

// ---- what a move leaves

// The machine after its move.
pub fn runtime_after(r: MachineRuntime, d: Moved) -> MachineRuntime
    ensures { result ≡ Spec.runtime_after r d }
{
    let mut q = r;
    q.current_state = d.current_state;
    q.state_limit = d.state_limit;
    q.counters = d.counters;
    q
}

// What the call shares after it.
pub fn shared_after(s: Shared, d: Moved) -> Shared
    ensures { result ≡ Spec.shared_after s d }
{
    let mut t = s;
    t.place = d.place;
    t.zeroed = d.zeroed;
    t
}

// Of the machine as it entered the state, and its counters.
fn move_of(q: &MachineRuntime, t: &Tally, at: Place) -> Moved
    ensures { result ≡ Spec.move_of q.now t.now at }
{
    Moved {
        current_state: q.current_state,
        state_limit: q.state_limit,
        counters: t.counters,
        place: at,
        zeroed: t.zeroed,
    }
}

// ---- the way

// After the counters: the action is scheduled where the limits allow it, which are judged with the
// machine as it entered the state.
#[tactic(auto, unfolding(crate::specs::Short::settle_in))]
fn settle_in<D: Draws>(
    row: &[u64],
    draws: &D,
    c: &Context,
    entered: &MachineRuntime,
    t: &Tally,
) -> Short
    ensures { result ≡ Spec.settle_in row.now (D.source draws.now).values c.now entered.now t.now }
{
    if below_action_limits(c, entered, row) {
        let Ok(scheduled) = schedule_action(row, draws, t.place) else {
            return Short::Elsewhere;
        };
        return Short::Acted(scheduled.value, move_of(entered, t, scheduled.at));
    }
    Short::Kept(move_of(entered, t, t.place))
}

// To a state of the machine, whose row is `row`.
#[tactic(auto, unfolding(crate::specs::Short::settle))]
fn settle<D: Draws>(
    row: &[u64],
    draws: &D,
    c: &Context,
    next: u64,
    r: MachineRuntime,
    s: &Shared,
) -> Short
    ensures { result ≡ Spec.settle row.now (D.source draws.now).values c.now next r s.now }
{
    let Ok(entered) = enter(row, draws, r, next, s.place) else {
        return Short::Elsewhere;
    };
    let q = entered.value;
    let Ok(t) = update_counters(row, draws, q.counters, s.zeroed, entered.at) else {
        return Short::Elsewhere;
    };
    if t.reports {
        return Short::Elsewhere;
    }
    settle_in(row, draws, c, &q, &t)
}

// The machine's own limit does not fall where its state changes.
#[tactic(auto, unfolding(crate::specs::Short::short))]
pub fn short_way<D: Draws>(
    rows: &[u64],
    draws: &D,
    c: &Context,
    falls: bool,
    chosen: Option<u64>,
    r: MachineRuntime,
    s: &Shared,
) -> Short
    ensures { result ≡ Spec.short rows.now (D.source draws.now).values c.now falls chosen r s.now }
{
    let Some(next) = chosen else {
        return Short::Elsewhere;
    };
    if next == STATE_END || next == STATE_SIGNAL || (falls && r.current_state == next) {
        return Short::Elsewhere;
    }
    settle(state_row(rows, next), draws, c, next, r, s)
}
