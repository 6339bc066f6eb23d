// For the benchmark's C program: opens, operations of one process and reads, through open, begin and step.
#![tactic(auto)]

pub mod opens;
pub mod reads;

use acts::{Answer, Ask};
use lanes::State;
use numbers::{Cell, Mark, Process, Terms};
use refusals::Refusal;
use steps::LentMut;

// No operation takes more steps.
const MOST: u32 = 11;

// An answer as one word, as the C program reads it: what it is in bits 40 and up, the operation's steps in bits 32 to 39, the value
// below.
fn packed(what: u8, steps: u8, value: u32) -> u64 {
    (u64::from(what) << 40) | (u64::from(steps) << 32) | u64::from(value)
}

// No `From`: neither type is of this crate.
pub fn word_of(a: Result<Answer, Refusal>) -> u64 {
    match a {
        Ok(Answer::Begun) => packed(1, 0, 0),
        Ok(Answer::Going) => packed(2, 0, 0),
        Ok(Answer::Read(v, b, k)) => packed(if b { 7 } else { 3 }, k, v),
        Ok(Answer::Written(k)) => packed(4, k, 0),
        Ok(Answer::Asked(b, k)) => packed(5, k, u32::from(b)),
        Err(r) => packed(6, 0, refusals::number(r)),
    }
}

fn goes_on(a: Result<Answer, Refusal>) -> bool {
    matches!(a, Ok(Answer::Begun | Answer::Going))
}

// The first `before` operations write; of the others kind 0 reads, 1 writes, any other asks, as the C program counts them.
fn ask_of(v: u32, before: u32, kind: u32, i: u32) -> Ask {
    if v < before {
        return Ask::Write(Cell(i), v);
    }
    match kind {
        0 => Ask::Read(Cell(i)),
        1 => Ask::Write(Cell(i), v),
        _ => Ask::Asked(Cell(i)),
    }
}

// The cell after i, of those below `cells`; after the last comes 0.
fn next(i: u32, cells: u32) -> u32 {
    if i < cells && 1 < cells - i { i + 1 } else { 0 }
}

// Process q begins what is asked and takes n steps of it.
fn begun(s: State, q: u32, ask: Ask, n: u32, lent: &mut LentMut<'_>) -> State {
    let mut t = grid::begin(s, Process(q), ask).state;
    for _ in 0..n {
        t = grid::step(t, Process(q), lent).state;
    }
    t
}

// The terms of a grid whose filling rule starts there.
fn terms(p: u32, m: u32, first: u32) -> Terms {
    Terms {
        p,
        m,
        first,
        step: 3,
    }
}

// An open grid in which each process below `busy` is in the middle of a write.
pub fn opened(p: u32, m: u32, busy: u32, lent: &mut LentMut<'_>) -> State {
    let o = grid::open(terms(p, m, 7), lent.as_ref());
    let mut s = o.state;
    for j in 0..busy {
        let ask = Ask::Write(Cell(0), j);
        s = begun(s, j, ask, 2, lent);
    }
    s
}

// C hands in slices, each by itself.
// Opens a grid and does an operation of process q for each lent word, which gets its outcome: first `before` writes, then
// operations of one kind, on the cells 0, 1, .. below `cells` in turn. Gives the pool's top.
#[unsafe(no_mangle)]
pub extern "C" fn grid_operations(
    readings: &mut [u32],
    links: &mut [u64],
    directory: &mut [u32],
    pool: &mut [Mark],
    outcomes: &mut [u64],
    p: u32,
    m: u32,
    q: u32,
    busy: u32,
    before: u32,
    kind: u32,
    cells: u32,
) -> u32 {
    let mut lent = LentMut {
        readings,
        links,
        directory,
        pool,
    };
    let mut s = opened(p, m, busy, &mut lent);
    let mut value: u32 = 0;
    let mut cell: u32 = 0;
    for outcome in outcomes.iter_mut() {
        let ask = ask_of(value, before, kind, cell);
        s = grid::begin(s, Process(q), ask).state;
        let mut word: u64 = 0;
        for _ in 0..MOST {
            let r = grid::step(s, Process(q), &mut lent);
            s = r.state;
            word = word_of(r.answer);
            if !goes_on(r.answer) {
                break;
            }
        }
        *outcome = word;
        cell = next(cell, cells);
        value = value.wrapping_add(1);
    }
    s.top
}
