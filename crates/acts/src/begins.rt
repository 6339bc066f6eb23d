// Beginning an operation: the refusals, and the lane that it starts from. What a refusal of any call leaves.
ghost use Rattle.std.specs.Prelude.{◌≡◌, true, ◌<◌, ◌≤◌};
ghost use Rattle.numbers.specs.Numbers.{most_processes};
ghost use Rattle.logic.specs.Pick.{pick};
ghost use Rattle.acts.specs.Calls.{cell_of, op_of, begun_of};
ghost use Rattle.acts.specs.Inner.{lane_at, changes};

use super::{Acted, Answer, Ask};
use lanes::{Check, Lane, Op};
use numbers::{Cell, PROCESSES, Process, Terms};
use refusals::Refusal;

// A process's lane; 0 where it has none.
pub fn lane_of(q: Process) -> usize
    ensures { (result ≡ lane_at q.0) × (result < most_processes) }
{
    if q.0 < PROCESSES { q.0 as usize } else { 0 }
}

// How many lanes are to be looked at: none where the sizes do not fit. (The calls' own look is `State::fits`.)
pub fn lanes_below(fits: bool, p: u32) -> usize
    requires { fits ≡ true → p ≤ most_processes }
    ensures { (result ≤ most_processes) × (result ≡ pick fits p 0) }
{
    if fits { p as usize } else { 0 }
}

pub fn cell_of(a: Ask) -> Cell
    ensures { result ≡ cell_of a }
{
    match a {
        Ask::Read(i) => i,
        Ask::Write(i, _) => i,
        Ask::Asked(i) => i,
    }
}

// The first stage of what is asked.
pub fn op_of(a: Ask) -> Op
    ensures { result ≡ op_of a }
{
    match a {
        Ask::Read(i) => Op::Read(i, Check::Link),
        Ask::Write(i, v) => Op::Store(i, v),
        Ask::Asked(i) => Op::Asked(i, Check::Link),
    }
}

pub fn refused(l: Lane, top: u32, r: Refusal) -> Acted
    ensures { result ≡ record { lane = l; top = top; answer = Err r } }
{
    Acted {
        lane: l,
        top: top,
        answer: Err(r),
    }
}

// Only a refusal changes nothing.
pub fn changes(a: Result<Answer, Refusal>) -> bool
    ensures { result ≡ changes a }
{
    a.is_ok()
}

// Beginning the operation o on cell i, in the lane l of process q.
#[tactic(auto, unfolding(crate::specs::Calls::begun_of))]
pub fn begun(fits: bool, z: Terms, top: u32, q: Process, l: Lane, i: Cell, o: Op) -> Acted
    ensures { result ≡ begun_of fits z top q.0 l i o }
{
    if !fits {
        return refused(l, top, Refusal::OutOfRange);
    }
    if z.p <= q.0 {
        return refused(l, top, Refusal::NoSuchProcess);
    }
    if !l.op.is_idle() {
        return refused(l, top, Refusal::UnderWay);
    }
    if !numbers::cell_fits(z, i) {
        return refused(l, top, Refusal::NoSuchCell);
    }
    Acted {
        lane: Lane {
            steps: 0,
            op: o,
            ..l
        },
        top: top,
        answer: Ok(Answer::Begun),
    }
}
