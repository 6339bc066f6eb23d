// A step judged and carried out: its refusals, the lane and the top after it, and its answer.
#![tactic(auto)]

ghost use Rattle.std.specs.Prelude.{◌≡◌, ◌≤◌};
ghost use Rattle.numbers.specs.Numbers.{most_steps};
ghost use Rattle.steps.specs.Memory.{words, words_mut, SameLent};
ghost use Rattle.steps.specs.Changes.{lane_after, top_after};
ghost use Rattle.steps.specs.Steps.{turn_of};
ghost use Rattle.steps.specs.Inner.{handed};
ghost use Rattle.acts.specs.Calls.{advance, answer_of, decided, verdict_of, effect, act_of};
ghost use Rattle.acts.specs.Inner.{named_in, named};
ghost use Rattle.judged.specs.Inner.{change_fits, marking_goes, op_goes, next_fits, new_fits, Told, moved_to};

use acts::{Acted, Answer, Seat, begins, opens};
use lanes::{Check, Lane, Marking, Op};
use numbers::{Process, SEGMENTS, STEPS, Terms};
use refusals::Refusal;
use steps::{Change, Lent, LentMut, Next, Turn};

fn named_in(c: Check) -> Process
    ensures { result.0 ≡ named_in c }
{
    match c {
        Check::Marks(w) => numbers::process_of(w),
        _ => Process(0),
    }
}

// The process whose marks in force the next step reads; 0 where it reads none.
pub fn named(o: Op) -> Process
    ensures { result.0 ≡ named o }
{
    match o {
        Op::Read(_, c) | Op::Asked(_, c) | Op::Write(_, c) => named_in(c),
        _ => Process(0),
    }
}

fn lane_after(l: Lane, change: Change) -> Lane
    ensures { result ≡ lane_after change l }
{
    match change {
        Change::Marks(n) => Lane { marks: n, ..l },
        Change::Top(_, n) => Lane { drawn: n, ..l },
        _ => l,
    }
}

fn top_after(top: u32, change: Change) -> u32
    ensures { result ≡ top_after change top }
{
    match change {
        Change::Top(n, _) => n,
        _ => top,
    }
}

// A lane of a state out of its ranges has any steps: that they are few is known of a step that moves alone, and is no type.
fn advance(l: Lane, next: Next) -> Lane
    requires { l.steps ≤ most_steps }
    ensures { result ≡ advance next l }
{
    match next {
        Next::Going(op) => Lane {
            steps: l.steps + 1,
            op,
            ..l
        },
        _ => Lane {
            steps: 0,
            op: Op::Idle,
            ..l
        },
    }
}

fn answer_of(steps: u8, next: Next) -> Answer
    requires { steps ≤ most_steps }
    ensures { result ≡ answer_of steps next }
{
    match next {
        Next::Going(_) => Answer::Going,
        Next::Read(v, b) => Answer::Read(v, b, steps + 1),
        Next::Written => Answer::Written(steps + 1),
        Next::Asked(b) => Answer::Asked(b, steps + 1),
    }
}

fn change_fits(z: Terms, change: Change) -> bool
    ensures { result ≡ change_fits z change }
{
    match change {
        Change::Marks(n) => n as usize <= numbers::most_marks(z.m),
        Change::Top(top, n) => {
            top as usize <= numbers::pool_words(z.p, z.m) && u32::from(n) <= SEGMENTS
        }
        _ => true,
    }
}

// Whether the place of the marking that a step goes on with is in its range: only after a tombstone is it another one.
fn op_goes(z: Terms, o: Op) -> bool
    ensures { result ≡ op_goes z o }
{
    match o {
        Op::Marking(_, Marking::Tombstone(_, n)) => (n.0 as usize) < numbers::most_marks(z.m),
        _ => true,
    }
}

fn next_fits(z: Terms, l: Lane, next: Next) -> bool
    ensures { result ≡ next_fits z l.steps l.op next }
{
    match next {
        Next::Going(_) => l.steps < STEPS && op_goes(z, l.op),
        _ => true,
    }
}

// Whether the numbers that a step can put outside their ranges stay there. The new lane is not looked at whole: the step took
// the rest of it over.
fn new_fits(z: Terms, l: Lane, t: Turn) -> bool
    ensures { result ≡ new_fits z l t.change t.next }
{
    change_fits(z, t.change) && next_fits(z, l, t.next)
}

fn decided(z: Terms, top: u32, l: Lane, t: Option<Turn>) -> Result<Turn, Refusal>
    requires { Told z top l t }
    ensures { result ≡ decided z top l t }
{
    let turn = t.ok_or(Refusal::OutOfRange)?;
    if !new_fits(z, l, turn) {
        return Err(Refusal::OutOfRange);
    }
    Ok(turn)
}

// The refusals of a step in their order.
#[tactic(auto, using(crate::proofs::ActLaws::told_known), unfolding(acts::specs::Calls::verdict_of))]
fn verdict_of(s: Seat, lent: Lent<'_>) -> Result<Turn, Refusal>
    ensures { result ≡ verdict_of s.fits s.terms s.top s.process.0 s.lane (words lent.entry)
        (turn_of s.terms s.top s.process.0 s.lane (handed s.seen) (words lent.entry)) }
{
    if !s.fits {
        return Err(Refusal::OutOfRange);
    }
    if !opens::lengths_fit(s.terms, lent) {
        return Err(Refusal::OtherLengths);
    }
    if s.terms.p <= s.process.0 {
        return Err(Refusal::NoSuchProcess);
    }
    if s.lane.op.is_idle() {
        return Err(Refusal::NothingUnderWay);
    }
    let t = turns::turn_of(s.terms, s.top, s.process, s.lane, s.seen, lent);
    decided(s.terms, s.top, s.lane, t)
}

fn moved(l: Lane, top: u32, t: Turn) -> Acted
    requires { l.steps ≤ most_steps }
    ensures { result ≡ moved_to l top t.change t.next }
{
    Acted {
        lane: advance(lane_after(l, t.change), t.next),
        top: top_after(top, t.change),
        answer: Ok(answer_of(l.steps, t.next)),
    }
}

// The step of a process: judged first, so that a refusal stores nothing.
#[tactic(auto, using(crate::proofs::ActLaws::moved_fits))]
pub fn act(s: Seat, lent: &mut LentMut<'_>) -> Acted
    ensures same { SameLent lent.old lent.new }
    ensures done { effect result (words_mut lent.new)
        ≡ act_of s.fits s.terms s.top s.process.0 s.lane (words_mut lent.old)
        (turn_of s.terms s.top s.process.0 s.lane (handed s.seen) (words_mut lent.old)) }
{
    match verdict_of(s, lent.as_ref()) {
        Err(r) => begins::refused(s.lane, s.top, r),
        Ok(t) => {
            steps::store::store(lent, t.change);
            moved(s.lane, s.top, t)
        }
    }
}
