// A grid at rest: whether no operation is under way, and what each cell then holds.
#![tactic(auto)]

ghost use Rattle.std.specs.Prelude.{◌≡◌, true};
ghost use Rattle.lanes.specs.Ranges.{state_fits};
ghost use Rattle.steps.specs.Memory.{words};
ghost use Rattle.acts.specs.Inner.{named_in};
ghost use Rattle.quiet.specs.Quiet.{marks_at, onward, looked_at, quarter_of, reading_as, reading_at, unfit, at_work, at_rest, scan_of};

use lanes::{Check, State};
use numbers::{Cell, PROCESSES};
use steps::{Found, Lent, Next};

// What a look at all the lanes shows. No `Result`: an order of refusals has another between these two (8).
#[derive(Clone, Copy)]
pub enum Scan {
    // A number of the state is out of range.
    Unfit,
    // Some operation is under way.
    AtWork,
    AtRest,
}

// What is read of a cell: its reading, and whether it is written. (By the filling rule it has a reading either way.)
#[derive(Clone, Copy)]
pub struct Quarter {
    pub reading: u32,
    pub written: bool,
}

// Whether no operation is under way, in a state that fits.
fn at_rest(s: &State) -> bool
    requires { state_fits s.now ≡ true }
    ensures { result ≡ at_rest s.now }
{
    s.lanes[..s.terms.p as usize].iter().all(|l| l.op.is_idle())
}

pub fn scan_of(s: State) -> Scan
    ensures { result ≡ scan_of s }
{
    if !s.fits() {
        return Scan::Unfit;
    }
    if at_rest(&s) {
        Scan::AtRest
    } else {
        Scan::AtWork
    }
}

impl Scan {
    pub fn is_unfit(self) -> bool
        ensures { result ≡ unfit self }
    {
        matches!(self, Scan::Unfit)
    }

    pub fn is_at_work(self) -> bool
        ensures { result ≡ at_work self }
    {
        matches!(self, Scan::AtWork)
    }
}

// The marks in force of lane q; 0 where there is no such lane.
fn marks_at(s: &State, q: u32) -> u32
    ensures { result ≡ marks_at s.now q }
{
    if q < PROCESSES {
        s.lanes[q as usize].marks
    } else {
        0
    }
}

// The marks in force that the next step of a check reads.
fn seen_in(s: &State, c: Check) -> u32
    ensures { result ≡ marks_at s.now (named_in c) }
{
    match c {
        Check::Marks(w) => marks_at(s, numbers::process_of(w).0),
        _ => marks_at(s, 0),
    }
}

// One more step of a check that has not ended.
#[tactic(auto, unfolding(steps::specs::Inner::handed))]
fn onward(s: &State, i: Cell, lent: Lent<'_>, found: Option<Found>) -> Option<Found>
    ensures { result ≡ onward s.now i lent.entry.links.now lent.entry.directory.now lent.entry.pool.now found }
{
    match found? {
        Found::On(c) => steps::look::check(s.terms, seen_in(s, c), lent, i, c),
        ended => Some(ended),
    }
}

// The check of cell i, run to its end: four steps at the most. The state is borrowed: a copy for each step would cost more than the step.
#[tactic(auto, unfolding(crate::specs::Quiet::looked_at))]
fn looked(s: &State, i: Cell, lent: Lent<'_>) -> Option<Found>
    ensures { result ≡ looked_at s.now i lent.entry.links.now lent.entry.directory.now lent.entry.pool.now }
{
    let a = onward(s, i, lent, Some(Found::On(Check::Link)));
    let b = onward(s, i, lent, a);
    let c = onward(s, i, lent, b);
    onward(s, i, lent, c)
}

// As `looked`. None where a word of the check lies outside its memory.
pub fn looked_at(s: State, i: Cell, lent: Lent<'_>) -> Option<Found>
    ensures { result ≡ looked_at s i lent.entry.links.now lent.entry.directory.now lent.entry.pool.now }
{
    looked(&s, i, lent)
}

fn quarter_of(n: Next) -> Option<Quarter>
    ensures { result ≡ quarter_of n }
{
    match n {
        Next::Read(reading, written) => Some(Quarter { reading, written }),
        _ => None,
    }
}

fn reading_as(s: &State, i: Cell, readings: &[u32], found: Option<Found>) -> Option<Quarter>
    ensures { result ≡ reading_as s.now i readings.now found }
{
    match found? {
        Found::On(_) => None,
        Found::NotWritten(_) => quarter_of(steps::not_written_read(s.terms, i)),
        Found::Written => quarter_of(steps::written_read(s.terms, readings, i)),
    }
}

// The read of cell i, run to its end: by the filling rule where it is not written. None where a word of its check lies outside its
// memory.
pub fn reading_at(s: State, i: Cell, lent: Lent<'_>) -> Option<Quarter>
    ensures { result ≡ reading_at s i (words lent.entry) }
{
    let found = looked(&s, i, lent);
    reading_as(&s, i, lent.readings, found)
}
