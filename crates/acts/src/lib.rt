// The calls: what open, begin and step determine; open's refusals, and a begin on one lane.
#![tactic(auto)]

pub mod begins;
pub mod opens;
mod seat;

use lanes::{Lane, State};
use numbers::Cell;
use refusals::Refusal;
pub use seat::Seat;

// What an operation is to be.
#[derive(Clone, Copy)]
pub enum Ask {
    Read(Cell),
    Write(Cell, u32),
    Asked(Cell),
}

// What a call answers that is not refused. A finished operation says how many of its own steps it took.
#[derive(Clone, Copy)]
pub enum Answer {
    Begun,
    Going,
    // the value, which a cell has either way, and whether it was written when it was read
    Read(u32, bool, u8),
    Written(u8),
    Asked(bool, u8),
}

// A state, and what was answered.
#[derive(Clone, Copy)]
pub struct Stepped {
    pub state: State,
    pub answer: Result<Answer, Refusal>,
}

// Whether a grid was opened, and its state; where it was refused, the closed state, which every call refuses. No `Result` of the two:
// the theorems `refused_open_is_closed`, `closed_begin` and `closed_step` speak of the state that a refused open gives.
#[derive(Clone, Copy)]
pub struct Opened {
    pub state: State,
    pub opening: Result<(), Refusal>,
}

// What a call makes of a lane and of the pool's top, and what it answers.
#[derive(Clone, Copy)]
pub struct Acted {
    pub lane: Lane,
    pub top: u32,
    pub answer: Result<Answer, Refusal>,
}
