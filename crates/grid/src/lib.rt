// The grid: open it, begin an operation, take a step.
#![tactic(auto)]

ghost use Rattle.std.specs.Prelude.{◌≡◌};
ghost use Rattle.steps.specs.Memory.{words, words_mut, SameLent};
ghost use Rattle.acts.specs.Calls.{outcome, open_of, begin_of, step_of};

use acts::{Ask, Opened, Seat, Stepped, begins, opens};
use lanes::State;
use numbers::{Process, Terms};
use steps::{Lent, LentMut};

// What a refused open leaves: terms that no call takes.
const CLOSED: Terms = Terms {
    p: 0,
    m: 0,
    first: 0,
    step: 0,
};

// Opens a grid in lent memory of any content: only the lengths are looked at.
pub fn open(z: Terms, lent: Lent<'_>) -> Opened
    ensures { result ≡ open_of z (words lent.entry) }
{
    match opens::opening_of(z, lent) {
        Ok(()) => opens::opened(z, Ok(())),
        Err(r) => opens::opened(CLOSED, Err(r)),
    }
}

// Begins an operation of process q. The state is copied once, into `t`, and changed there. The lane is taken after the look at
// all of them, which spares holding it until then.
pub fn begin(s: State, q: Process, a: Ask) -> Stepped
    ensures { result ≡ begin_of s q.0 a }
{
    let mut t = s;
    let fits = t.fits();
    let k = begins::lane_of(q);
    let l = t.lanes[k];
    let b = begins::begun(
        fits,
        t.terms,
        t.top,
        q,
        l,
        begins::cell_of(a),
        begins::op_of(a),
    );
    t.top = b.top;
    t.lanes[k] = b.lane;
    Stepped {
        state: t,
        answer: b.answer,
    }
}

// One step of process q. The state is copied once, into `t`, and changed there; no other function takes it. The lane is taken
// late, as in `begin`, and a refusal leaves it where it is.
pub fn step(s: State, q: Process, lent: &mut LentMut<'_>) -> Stepped
    ensures same { SameLent lent.old lent.new }
    ensures done { outcome result (words_mut lent.new) ≡ step_of s q.0 (words_mut lent.old) }
{
    let mut t = s;
    let fits = t.fits();
    let k = begins::lane_of(q);
    let lane = t.lanes[k];
    let j = begins::lane_of(judged::named(lane.op));
    let seat = Seat {
        fits,
        terms: t.terms,
        top: t.top,
        process: q,
        lane,
        seen: t.lanes[j].marks,
    };
    let b = judged::act(seat, lent);
    if begins::changes(b.answer) {
        t.top = b.top;
        t.lanes[k] = b.lane;
    }
    Stepped {
        state: t,
        answer: b.answer,
    }
}
