// The steps of a write from its check on, rules 2 to 8.
ghost use Rattle.std.specs.Prelude.{◌≡◌, true};
ghost use Rattle.lanes.specs.Ranges.{place_in, place_fits, sizes_fit};
ghost use Rattle.steps.specs.Steps.{marks, tombstone_first, marking_at, marking_next, entered};
ghost use Rattle.steps.specs.Steps.{checked_turn, draw_turn, enter_turn, put_turn, swap_turn, marking_turn};

use lanes::{Lane, Marking, Op};
use numbers::{Cell, Mark, Place, Process, Terms};
use steps::{Change, Found, Lent, Next, Turn, look};

fn marks(change: Change, i: Cell, k: Marking) -> Turn
    ensures { result ≡ marks change i k }
{
    super::makes(change, Next::Going(Op::Marking(i, k)))
}

fn tombstone_first(q: Process, w: u64, n: Place) -> Marking
    ensures { result ≡ tombstone_first q.0 w n }
{
    let own = numbers::link_of(q, n);
    if w == own {
        Marking::Tombstone(w, n)
    } else {
        Marking::Mark(w, n)
    }
}

fn marking_at(q: Process, l: Lane, w: u64) -> Marking
    ensures { result ≡ marking_at q.0 l w }
{
    let first = Place(u64::from(l.marks));
    if numbers::segment_of(first) < u32::from(l.drawn) {
        tombstone_first(q, w, first)
    } else {
        Marking::Draw(false, w, first)
    }
}

fn marking_next(l: Lane, w: u64, n: Place) -> Marking
    ensures { result ≡ marking_next l w n }
{
    if numbers::segment_of(n) < u32::from(l.drawn) {
        Marking::Mark(w, n)
    } else {
        Marking::Draw(true, w, n)
    }
}

fn entered(q: Process, stored: bool, w: u64, n: Place) -> Marking
    ensures { result ≡ entered q.0 stored w n }
{
    if stored {
        Marking::Mark(w, n)
    } else {
        tombstone_first(q, w, n)
    }
}

pub fn checked_turn(q: Process, l: Lane, i: Cell, found: Option<Found>) -> Option<Turn>
    ensures { result ≡ checked_turn q.0 l i found }
{
    Some(match found? {
        Found::On(c) => super::goes(Op::Write(i, c)),
        Found::NotWritten(w) => super::goes(Op::Marking(i, marking_at(q, l, w))),
        Found::Written => super::ends(Next::Written),
    })
}

// The ranges are asked for, and are no type: of the terms, the top and a place each caller knows them from another test.
#[tactic(auto, using(crate::proofs::WriteLaws::drawn_few, crate::proofs::WriteLaws::drawn_whole, crate::proofs::WriteLaws::drawn_top))]
fn draw_turn(z: Terms, top: u32, i: Cell, stored: bool, w: u64, n: Place) -> Turn
    requires { (sizes_fit z top ≡ true) × (place_fits z n ≡ true) }
    ensures { result ≡ draw_turn top i stored w n }
{
    let s = numbers::segment_of(n);
    let raised = (u64::from(top) + numbers::size_of(s)) as u32;
    let drawn = (s + 1) as u8;
    marks(
        Change::Top(raised, drawn),
        i,
        Marking::Enter(stored, top, w, n),
    )
}

fn enter_turn(q: Process, i: Cell, stored: bool, start: u32, w: u64, n: Place) -> Turn
    ensures { result ≡ enter_turn q.0 i stored start w n }
{
    let at = numbers::directory_word(q, numbers::segment_of(n));
    let k = entered(q, stored, w, n);
    marks(Change::Directory(at, start), i, k)
}

// A word goes to the own place n, if it has one in the pool, and the write goes on with the marking k.
fn put_turn(q: Process, lent: Lent<'_>, i: Cell, n: Place, mark: Mark, k: Marking) -> Option<Turn>
    ensures { result ≡ put_turn q.0 lent.entry.directory.now lent.entry.pool.now i n mark k }
{
    let start = look::start_of(lent.directory, q, n);
    look::pool_word(lent.pool, start, n)?;
    Some(marks(Change::Mark(start, n, mark), i, k))
}

fn swap_turn(z: Terms, q: Process, links: &[u64], i: Cell, w: u64, n: Place) -> Turn
    ensures { result ≡ swap_turn z q.0 links.now i w n }
{
    let at = numbers::index_of(z, i);
    let is = look::word(links, at, 0);
    if is == w {
        super::makes(Change::Link(at, numbers::link_of(q, n)), Next::Written)
    } else {
        super::goes(Op::Marking(i, Marking::TakeBack(n)))
    }
}

// One step of the marking k.
pub fn marking_turn(
    z: Terms,
    top: u32,
    q: Process,
    l: Lane,
    lent: Lent<'_>,
    i: Cell,
    k: Marking,
) -> Option<Turn>
    requires { (sizes_fit z top ≡ true) × (place_fits z (place_in k) ≡ true) }
    ensures { result ≡ marking_turn z top q.0 l lent.entry.links.now lent.entry.directory.now lent.entry.pool.now i k }
{
    match k {
        Marking::Draw(stored, w, n) => Some(draw_turn(z, top, i, stored, w, n)),
        Marking::Enter(stored, start, w, n) => Some(enter_turn(q, i, stored, start, w, n)),
        Marking::Tombstone(w, n) => {
            let after = n.0 + 1;
            let then = marking_next(l, w, Place(after));
            put_turn(q, lent, i, n, numbers::TOMBSTONE, then)
        }
        Marking::Mark(w, n) => {
            let own = numbers::mark_of(i);
            put_turn(q, lent, i, n, own, Marking::Force(w, n))
        }
        Marking::Force(w, n) => {
            let forced = (n.0 + 1) as u32;
            Some(marks(Change::Marks(forced), i, Marking::Swap(w, n)))
        }
        Marking::Swap(w, n) => Some(swap_turn(z, q, lent.links, i, w, n)),
        Marking::TakeBack(n) => {
            let back = n.0 as u32;
            Some(super::makes(Change::Marks(back), Next::Written))
        }
    }
}
