// One step of an operation, as the step list says: the word that it changes, and what comes next.
#![tactic(auto)]

ghost use Rattle.std.specs.Prelude.{◌≡◌, true};
ghost use Rattle.lanes.specs.Ranges.{lane_fits, sizes_fit};
ghost use Rattle.steps.specs.Memory.{words};
ghost use Rattle.steps.specs.Inner.{handed};
ghost use Rattle.steps.specs.Steps.{makes, goes, ends, read_turn, asked_turn, turn_of};

mod write;

use lanes::{Check, Lane, Op};
use numbers::{Cell, Process, Terms};
use steps::{Change, Found, Lent, Next, Turn, look};

fn makes(change: Change, next: Next) -> Turn
    ensures { result ≡ makes change next }
{
    Turn { change, next }
}

fn goes(o: Op) -> Turn
    ensures { result ≡ goes o }
{
    makes(Change::Nothing, Next::Going(o))
}

fn ends(answer: Next) -> Turn
    ensures { result ≡ ends answer }
{
    makes(Change::Nothing, answer)
}

fn read_turn(z: Terms, i: Cell, found: Option<Found>) -> Option<Turn>
    ensures { result ≡ read_turn z i found }
{
    Some(match found? {
        Found::On(c) => goes(Op::Read(i, c)),
        Found::NotWritten(_) => ends(steps::not_written_read(z, i)),
        Found::Written => goes(Op::Reading(i)),
    })
}

fn asked_turn(i: Cell, found: Option<Found>) -> Option<Turn>
    ensures { result ≡ asked_turn i found }
{
    Some(match found? {
        Found::On(c) => goes(Op::Asked(i, c)),
        Found::NotWritten(_) => ends(Next::Asked(false)),
        Found::Written => ends(Next::Asked(true)),
    })
}

// One step of process q, whose lane is l; none where the word to be touched lies outside its memory. `seen` is the marks in force
// that (b) reads: those of the process that the link names.
pub fn turn_of(z: Terms, top: u32, q: Process, l: Lane, seen: u32, lent: Lent<'_>) -> Option<Turn>
    requires { (sizes_fit z top ≡ true) × (lane_fits z l ≡ true) }
    ensures { result ≡ turn_of z top q.0 l (handed seen) (words lent.entry) }
{
    let o = l.op;
    match o {
        Op::Idle => None,
        Op::Read(i, c) => read_turn(z, i, look::check(z, seen, lent, i, c)),
        Op::Asked(i, c) => asked_turn(i, look::check(z, seen, lent, i, c)),
        Op::Write(i, c) => write::checked_turn(q, l, i, look::check(z, seen, lent, i, c)),
        Op::Reading(i) => Some(ends(steps::written_read(z, lent.readings, i))),
        Op::Store(i, v) => Some(makes(
            Change::Reading(numbers::index_of(z, i), v),
            Next::Going(Op::Write(i, Check::Link)),
        )),
        Op::Marking(i, k) => write::marking_turn(z, top, q, l, lent, i, k),
    }
}
