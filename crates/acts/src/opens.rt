// Opening: the refusals, and the state that a grid starts from.
ghost use Rattle.std.specs.Prelude.{◌≡◌};
ghost use Rattle.steps.specs.Memory.{words};
ghost use Rattle.acts.specs.Calls.{lengths_fit, opening_of, fresh};

use super::Opened;
use lanes::{Lane, Op, State};
use numbers::{LANES, Terms};
use refusals::Refusal;
use steps::Lent;

// Whether the lent memories have the lengths of these terms.
pub fn lengths_fit(z: Terms, lent: Lent<'_>) -> bool
    ensures { result ≡ lengths_fit z (words lent.entry) }
{
    lent.readings.len() == z.m as usize
        && lent.links.len() == z.m as usize
        && lent.directory.len() == numbers::directory_words(z.p)
        && lent.pool.len() == numbers::pool_words(z.p, z.m)
}

#[tactic(auto, unfolding(crate::specs::Calls::opening_of))]
pub fn opening_of(z: Terms, lent: Lent<'_>) -> Result<(), Refusal>
    ensures { result ≡ opening_of z (words lent.entry) }
{
    if !numbers::processes_fit(z.p) {
        return Err(Refusal::ProcessCount);
    }
    if !numbers::cells_fit(z.m) {
        return Err(Refusal::CellCount);
    }
    if !lengths_fit(z, lent) {
        return Err(Refusal::LentLength);
    }
    Ok(())
}

// The state that a grid of these terms starts from.
pub fn opened(z: Terms, is: Result<(), Refusal>) -> Opened
    ensures { result ≡ record { state = fresh z; opening = is } }
{
    let l = Lane {
        marks: 0,
        drawn: 0,
        steps: 0,
        op: Op::Idle,
    };
    let lanes = [l; LANES];
    let s = State {
        terms: z,
        top: 0,
        lanes: lanes,
    };
    Opened {
        state: s,
        opening: is,
    }
}
