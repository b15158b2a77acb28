// The choice of a next state, with the chance that it draws.
ghost use Rattle.refusal.specs.Refusal.{told};
ghost use Rattle.std.specs.Prelude.{◌≡◌, ◌<◌};
ghost use Rattle.moves.specs.Choice as Spec;

use machine::constants::STATE_END;
use machine::source::{Draw, Draws, Place};
use machine::state::{count_of, first_of, sample_state, state_row};
use refusal::Refusal;

// Nothing is drawn where the machine has ended, or its state has no row for the event.
#[tactic(auto, unfolding(crate::specs::Choice::choose, crate::specs::Choice::idle, machine::specs::Source::chance_draw))]
pub fn choose<D: Draws>(
    rows: &[u64],
    transitions: &[u64],
    draws: &D,
    state: u64,
    event: u64,
    at: Place,
) -> Result<Draw<Option<u64>>, Refusal>
    requires { event < 13 }
    ensures { told result ≡ Spec.choose rows.now transitions.now (D.source draws.now).chance state event at }
{
    let row = state_row(rows, state);
    let count = count_of(row, event);
    if state == STATE_END || count == 0 {
        return Ok(Draw { value: None, at });
    }
    let chance = draws.chance(at)?;
    let next = sample_state(transitions, first_of(row, event), count, chance.value);
    Ok(Draw {
        value: next,
        at: chance.at,
    })
}
