// The hour summary: peak and mean of the written quarters of an hour, and how many they are, on a grid at rest.
#![tactic(auto)]

ghost use Rattle.std.specs.Prelude.{◌≡◌, ◌+◌, ◌/◌, ◌<◌, Some};
ghost use Rattle.steps.specs.Memory.{words};
ghost use Rattle.summary.specs.Summary.{greater, four_from, quarters, written_among, summary_of};
ghost use Rattle.summary.specs.Inner.{Few, Counts, Mean, hour_from, summed, summary_as, four};

use acts::opens;
use lanes::State;
use numbers::Cell;
use quiet::Quarter;
use refusals::Refusal;
use steps::Lent;

#[derive(Clone, Copy)]
pub struct Hour {
    pub peak: u32,
    pub mean: u32,
    // How many of the four quarters are written.
    pub count: u32,
}

// What is kept of the written quarters. The sum of four readings needs 34 bits.
#[derive(Clone, Copy)]
struct Tally {
    count: u32,
    sum: u64,
    peak: u32,
}

fn greater(a: u32, b: u32) -> u32
    ensures { result ≡ greater a b }
{
    a.max(b)
}

// One quarter more, which counts if it is written.
fn counted(t: Tally, q: Quarter) -> Tally
    requires { Few 3 t }
    ensures { Counts t (Some q) result }
{
    if q.written {
        Tally {
            count: t.count + 1,
            sum: t.sum + u64::from(q.reading),
            peak: greater(t.peak, q.reading),
        }
    } else {
        t
    }
}

fn mean_of(sum: u64, count: u32) -> u32
    requires { Mean sum count }
    ensures { result ≡ sum / count }
{
    (sum / u64::from(count)) as u32
}

fn hour_of(t: Tally) -> Hour
    requires { Mean t.sum t.count }
    ensures { result ≡ hour_from t }
{
    Hour {
        peak: t.peak,
        mean: mean_of(t.sum, t.count),
        count: t.count,
    }
}

// Counted from the last on: the list of readings grows at its front.
fn summed(a: Quarter, b: Quarter, c: Quarter, d: Quarter) -> Result<Hour, Refusal>
    ensures { result ≡ summed (written_among (four (Some a) (Some b) (Some c) (Some d))) }
{
    let none = Tally {
        count: 0,
        sum: 0,
        peak: 0,
    };
    let t = counted(counted(counted(counted(none, d), c), b), a);
    if t.count == 0 {
        return Err(Refusal::NothingWritten);
    }
    Ok(hour_of(t))
}

// All four are looked at before it is said that none is written.
fn quarters(s: State, i: u32, lent: Lent<'_>) -> Result<Hour, Refusal>
    requires { i + 3 < 4294967296 }
    ensures { result ≡ summary_as (quarters s (words lent.entry) (four_from i)) }
{
    let outside = Refusal::OutOfRange;
    let a = quiet::reading_at(s, Cell(i), lent).ok_or(outside)?;
    let b = quiet::reading_at(s, Cell(i + 1), lent).ok_or(outside)?;
    let c = quiet::reading_at(s, Cell(i + 2), lent).ok_or(outside)?;
    let d = quiet::reading_at(s, Cell(i + 3), lent).ok_or(outside)?;
    summed(a, b, c, d)
}

// The summary of hour h. Nothing is changed: the state is lent by value and the memories are only read.
#[tactic(auto, unfolding(crate::specs::Summary::summary_of))]
pub fn hour_summary(s: State, h: u32, lent: Lent<'_>) -> Result<Hour, Refusal>
    ensures { result ≡ summary_of s h (words lent.entry) }
{
    let shown = quiet::scan_of(s);
    if shown.is_unfit() {
        return Err(Refusal::OutOfRange);
    }
    if !opens::lengths_fit(s.terms, lent) {
        return Err(Refusal::OtherLengths);
    }
    if shown.is_at_work() {
        return Err(Refusal::AtWork);
    }
    if s.terms.m / 4 <= h {
        return Err(Refusal::NoSuchCell);
    }
    quarters(s, 4 * h, lent)
}
