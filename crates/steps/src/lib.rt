// The step list: its definitions, what a step reads and where it stores.
#![tactic(auto)]

ghost use Rattle.std.specs.Prelude.{◌≡◌};
ghost use Rattle.steps.specs.Steps.{not_written_read, written_read};

mod lent;
pub mod look;
pub mod store;

use lanes::{Check, Op};
pub use lent::{Lent, LentMut};
use numbers::{Cell, Mark, Place, Terms};

// What a step of a check shows.
#[derive(Clone, Copy)]
pub enum Found {
    On(Check),
    NotWritten(u64),
    Written,
}

// The one shared word that a step changes.
#[derive(Clone, Copy)]
pub enum Change {
    Nothing,
    // the reading, the link, the directory word at an index
    Reading(usize, u32),
    Link(usize, u64),
    Directory(usize, u32),
    // the mark at a place of the segment that starts there
    Mark(u32, Place, Mark),
    // the marks in force
    Marks(u32),
    // the pool's top, with the count of drawn segments that goes with it
    Top(u32, u8),
}

// The shared words: the lent words by their index, each lane's marks in force, and the pool's top.
#[derive(Clone, Copy)]
pub enum Word {
    Reading(usize),
    Link(usize),
    Directory(usize),
    Pool(usize),
    Marks(u32),
    Top,
}

// The operation's next stage, or its answer.
#[derive(Clone, Copy)]
pub enum Next {
    Going(Op),
    // the value, and whether the cell is written; by the filling rule it has a value either way
    Read(u32, bool),
    Written,
    Asked(bool),
}

// What one step does.
#[derive(Clone, Copy)]
pub struct Turn {
    pub change: Change,
    pub next: Next,
}

// The two answers of a read: each has its value and its flag from one place.
pub fn not_written_read(z: Terms, i: Cell) -> Next
    ensures { result ≡ not_written_read z i }
{
    Next::Read(numbers::fill_at(z, i), false)
}

pub fn written_read(z: Terms, readings: &[u32], i: Cell) -> Next
    ensures { result ≡ written_read z readings.now i }
{
    Next::Read(look::word(readings, numbers::index_of(z, i), 0), true)
}
