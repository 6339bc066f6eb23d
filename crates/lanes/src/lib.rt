// The state of a grid: its lanes, the operation under way in each, and the range of every number.
#![tactic(auto)]

ghost use Rattle.std.specs.Prelude.{◌≡◌};
ghost use Rattle.lanes.specs.Ranges.{idle, cell_in, place_in, place_fits, link_fits, check_fits, rest_fits, op_fits, lane_fits, sizes_fit, state_fits};

use numbers::{Cell, LANES, Place, SEGMENTS, STEPS, Terms};

// Where the check of a cell stands: the word that it reads next, and what it has read.
#[derive(Clone, Copy)]
pub enum Check {
    // (a) its link
    Link,
    // (b) the marks in force of the link's process
    Marks(u64),
    // (c) the directory word
    Directory(u64),
    // (d) the mark, in the segment that starts there
    Mark(u32, u64),
}

// Where the marking of a cell stands, rules 3 to 8. The word is the link that (a) read; a bool says whether the tombstone is
// already stored, and rules no value beside it.
#[derive(Clone, Copy)]
pub enum Marking {
    // 3. the pool's top, then the directory
    Draw(bool, u64, Place),
    Enter(bool, u32, u64, Place),
    // 4.
    Tombstone(u64, Place),
    // 5.
    Mark(u64, Place),
    // 6.
    Force(u64, Place),
    // 7.
    Swap(u64, Place),
    // 8.
    TakeBack(Place),
}

// The operation under way, if any, at its stage. No `Option` of the others: that none is under way is a row of the papers' list like
// them, which `op_turn`, `touched` and `op_fits` read with the rest.
#[derive(Clone, Copy)]
pub enum Op {
    Idle,
    // a read: its check, and the reading once that has shown the cell written
    Read(Cell, Check),
    Reading(Cell),
    Asked(Cell, Check),
    // a write: 1. the reading; 2. its check; 3. to 8. the marking
    Store(Cell, u32),
    Write(Cell, Check),
    Marking(Cell, Marking),
}

#[derive(Clone, Copy)]
pub struct Lane {
    pub marks: u32,
    pub drawn: u8,
    pub steps: u8,
    pub op: Op,
}

// What the grid was opened with, the pool's top and the lanes.
#[derive(Clone, Copy)]
pub struct State {
    pub terms: Terms,
    pub top: u32,
    pub lanes: [Lane; LANES],
}

pub fn place_fits(z: Terms, n: Place) -> bool
    ensures { result ≡ place_fits z n }
{
    n.0 as usize <= numbers::most_marks(z.m)
}

fn link_fits(z: Terms, w: u64) -> bool
    ensures { result ≡ link_fits z w }
{
    numbers::process_of(w).0 < z.p && place_fits(z, numbers::place_of(w))
}

impl Check {
    fn fits(&self, z: Terms) -> bool
        ensures { result ≡ check_fits z self.now }
    {
        match *self {
            Check::Link => true,
            Check::Marks(w) => numbers::process_of(w).0 < z.p,
            Check::Directory(w) | Check::Mark(_, w) => link_fits(z, w),
        }
    }
}

impl Marking {
    pub fn place(&self) -> Place
        ensures { result ≡ place_in self.now }
    {
        match *self {
            Marking::Draw(_, _, n)
            | Marking::Enter(_, _, _, n)
            | Marking::Tombstone(_, n)
            | Marking::Mark(_, n)
            | Marking::Force(_, n)
            | Marking::Swap(_, n)
            | Marking::TakeBack(n) => n,
        }
    }
}

impl Op {
    // Whether no operation is under way.
    pub fn is_idle(&self) -> bool
        ensures { result ≡ idle self.now }
    {
        matches!(*self, Op::Idle)
    }

    // The cell of an operation; cell 0 where none is under way.
    fn cell(&self) -> Cell
        ensures { result ≡ cell_in self.now }
    {
        match *self {
            Op::Idle => Cell(0),
            Op::Read(i, _)
            | Op::Reading(i)
            | Op::Asked(i, _)
            | Op::Store(i, _)
            | Op::Write(i, _)
            | Op::Marking(i, _) => i,
        }
    }

    // Whether what an operation holds beside its cell is in its range.
    fn rest_fits(&self, z: Terms) -> bool
        ensures { result ≡ rest_fits z self.now }
    {
        match *self {
            Op::Idle | Op::Reading(_) | Op::Store(_, _) => true,
            Op::Read(_, c) | Op::Asked(_, c) | Op::Write(_, c) => c.fits(z),
            Op::Marking(_, k) => place_fits(z, k.place()),
        }
    }
}

impl Lane {
    // Whether a lane's numbers are in their ranges.
    pub fn fits(&self, z: Terms) -> bool
        ensures { result ≡ lane_fits z self.now }
    {
        self.marks as usize <= numbers::most_marks(z.m)
            && u32::from(self.drawn) <= SEGMENTS
            && self.op_fits(z)
    }

    // Most lanes are at rest: asked first.
    fn op_fits(&self, z: Terms) -> bool
        ensures { result ≡ op_fits z self.now.steps self.now.op }
    {
        if self.op.is_idle() {
            self.steps == 0
        } else {
            self.steps <= STEPS && numbers::cell_fits(z, self.op.cell()) && self.op.rest_fits(z)
        }
    }
}

// Whether p, m and the pool's top are in their ranges.
pub fn sizes_fit(z: Terms, top: u32) -> bool
    ensures { result ≡ sizes_fit z top }
{
    numbers::processes_fit(z.p)
        && numbers::cells_fit(z.m)
        && top as usize <= numbers::pool_words(z.p, z.m)
}

impl State {
    // Whether every number that a call looks at is in its range. Lanes at or above p are not looked at.
    pub fn fits(&self) -> bool
        ensures { result ≡ state_fits self.now }
    {
        sizes_fit(self.terms, self.top)
            && self.lanes[..self.terms.p as usize]
                .iter()
                .all(|l| l.fits(self.terms))
    }
}
