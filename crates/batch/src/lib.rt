// Many begins and steps in one call: the state stays in one local, and is looked at once.
#![tactic(auto)]

ghost use Rattle.std.specs.Prelude.{◌≡◌, ◌<◌, Ok};
ghost use Rattle.steps.specs.Memory.{words_mut, SameLent};
ghost use Rattle.acts.specs.Calls.{op_of, effect};
ghost use Rattle.batch.specs.Batch.{bit, count_of, code_with, code_of, answer_of, beginning, ask_of, entry_of, batch, entries, batch_of, Told};

use acts::{Acted, Answer, Seat, begins};
use lanes::{Check, Lane, Op, State};
use numbers::{Cell, Process, Terms};
use refusals::Refusal;
use steps::LentMut;

fn code(kind: u64, count: u32, value: u32) -> u64
    requires { (kind < 256) × (count < 16777216) }
    ensures { result ≡ code_with kind count value }
{
    kind + 256 * (count as u64) + 4294967296 * (value as u64)
}

fn bit(b: bool) -> u32
    ensures { result ≡ bit b }
{
    if b { 1 } else { 0 }
}

// A read's steps, with its flag.
fn count_of(b: bool, n: u8) -> u32
    ensures { (result ≡ count_of b n) × (result < 16777216) }
{
    if b { 256 + n as u32 } else { n as u32 }
}

// No `From`: neither type is of this crate. With `u32::from` in place of the casts two goals stay open.
fn code_answer(a: Answer) -> u64
    ensures word { result ≡ code_of (Ok a) }
    ensures back { answer_of result ≡ Ok a }
{
    match a {
        Answer::Begun => code(0, 0, 0),
        Answer::Going => code(1, 0, 0),
        Answer::Read(v, b, n) => code(2, count_of(b, n), v),
        Answer::Written(n) => code(3, n as u32, 0),
        Answer::Asked(b, n) => code(4, n as u32, bit(b)),
    }
}

#[tactic(auto, using(crate::specs::Words::number_few))]
fn code_of(a: Result<Answer, Refusal>) -> u64
    ensures word { result ≡ code_of a }
    ensures back { answer_of result ≡ a }
{
    match a {
        Ok(answer) => code_answer(answer),
        Err(r) => code(5, refusals::number(r), 0),
    }
}

// The answer that a word says.
#[tactic(auto, unfolding(crate::specs::Batch::answer_of))]
pub fn answer_of(w: u64) -> Result<Answer, Refusal>
    ensures { result ≡ answer_of w }
{
    let count = (w / 256 % 256) as u8;
    let flag = w / 65536 % 256;
    let value = (w / 4294967296) as u32;
    match w % 256 {
        0 => Ok(Answer::Begun),
        1 => Ok(Answer::Going),
        2 => Ok(Answer::Read(value, flag == 1, count)),
        3 => Ok(Answer::Written(count)),
        4 => Ok(Answer::Asked(value == 1, count)),
        _ => Err(refusals::of_number(count as u32)),
    }
}

fn beginning(kind: u8) -> bool
    ensures { result ≡ beginning kind }
{
    if kind < 1 { false } else { kind <= 3 }
}

// The first stage of what an entry asks, with no ask made first.
fn op_of(kind: u8, i: Cell, v: u32) -> Op
    ensures { result ≡ op_of (ask_of kind i v) }
{
    if kind == 1 {
        return Op::Read(i, Check::Link);
    }
    if kind == 2 {
        return Op::Store(i, v);
    }
    Op::Asked(i, Check::Link)
}

// One entry: a begin of the kinds 1 to 3, else a step.
fn entry(s: Seat, kind: u8, i: Cell, v: u32, lent: &mut LentMut<'_>) -> Acted
    ensures same { SameLent lent.old lent.new }
    ensures done { effect result (words_mut lent.new)
        ≡ entry_of s.fits s.terms s.top s.process.0 s.lane s.seen kind i v (words_mut lent.old) }
{
    if beginning(kind) {
        let o = op_of(kind, i, v);
        return begins::begun(s.fits, s.terms, s.top, s.process, s.lane, i, o);
    }
    judged::act(s, lent)
}

// As many entries as the shortest list has, each on the state and the memories that the one before it left. Every call keeps a
// state in its ranges there, and one out of them as it is: so one look at the lanes serves them all.
// A slice for each field, of any lengths, and kinds in bytes, any of them an entry: as C has its list, and as `batch_of` says.
pub fn run(
    s: State,
    kinds: &[u8],
    processes: &[u32],
    cells: &[u32],
    values: &[u32],
    answers: &mut [u64],
    lent: &mut LentMut<'_>,
) -> State
    ensures same { SameLent lent.old lent.new }
    ensures done { batch result (words_mut lent.new) answers.new
        ≡ batch_of s (words_mut lent.old) answers.old kinds.now processes.now cells.now values.now }
    ensures told { Told kinds.now processes.now cells.now values.now (batch s (words_mut lent.old) answers.old)
        (entries kinds.now processes.now cells.now values.now answers.old) answers.new }
{
    let mut t = s;
    let fits = s.fits();
    let n = kinds
        .len()
        .min(processes.len())
        .min(cells.len().min(values.len()))
        .min(answers.len());
    for i in 0..n {
        let q = Process(processes[i]);
        let k = begins::lane_of(q);
        let l = t.lanes[k];
        // by its fields: taken as one it is read in wider words than it was stored in
        let lane = Lane {
            marks: l.marks,
            drawn: l.drawn,
            steps: l.steps,
            op: l.op,
        };
        let j = begins::lane_of(judged::named(lane.op));
        let seat = Seat {
            fits,
            terms: s.terms,
            top: t.top,
            process: q,
            lane,
            seen: t.lanes[j].marks,
        };
        let b = entry(seat, kinds[i], Cell(cells[i]), values[i], lent);
        answers[i] = code_of(b.answer);
        if begins::changes(b.answer) {
            t.top = b.top;
            t.lanes[k] = b.lane;
        }
    }
    t
}
