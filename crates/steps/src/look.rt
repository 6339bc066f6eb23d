// What a step reads: a word of a memory, a mark through its segment's part of the pool, and the check of a cell.
ghost use Rattle.std.specs.Prelude.{◌≡◌, ◌<◌, get_or};
ghost use Rattle.steps.specs.Steps.{check_link, check_marks, check_mark, check, start_of, pool_word};
ghost use Rattle.steps.specs.Inner.{handed, word_in, Part};

use super::{Found, Lent};
use lanes::Check;
use numbers::{Cell, Mark, Place, Process, Terms};

// The word at i of a memory of either width; outside it the one that is given.
pub fn word<T: Copy>(a: &[T], i: usize, outside: T) -> T
    ensures { result ≡ get_or a.now i outside }
{
    a.get(i).copied().unwrap_or(outside)
}

// Where the segment of place n of process q starts.
pub fn start_of(directory: &[u32], q: Process, n: Place) -> u32
    ensures { result ≡ start_of directory.now q.0 n.0 }
{
    word(
        directory,
        numbers::directory_word(q, numbers::segment_of(n)),
        0,
    )
}

fn word_in(part: &[Mark], at: usize) -> Option<Mark>
    ensures { result ≡ word_in part.now at }
{
    part.get(at).copied()
}

// Where the segment's part of the pool ends: with the segment, or with the pool.
pub fn part_end(len: usize, from: usize, n: Place) -> usize
    requires { from < len }
    ensures { Part len from n.0 result }
{
    let s = numbers::segment_of(n);
    // A segment that long passes the end of any pool.
    if 63 <= s {
        return len;
    }
    let size = numbers::size_of(s) as usize;
    if size <= len - from { from + size } else { len }
}

// The mark at place n of the segment that starts there, or none where it lies outside the pool: the segment's part of the pool is
// handed on.
pub fn pool_word(pool: &[Mark], start: u32, n: Place) -> Option<Mark>
    ensures { result ≡ pool_word pool.now start n.0 }
{
    let from = start as usize;
    if pool.len() <= from {
        return None;
    }
    let end = part_end(pool.len(), from, n);
    word_in(&pool[from..end], numbers::offset_of(n) as usize)
}

fn check_link(p: u32, w: u64) -> Found
    ensures { result ≡ check_link p w }
{
    if numbers::process_of(w).0 < p {
        Found::On(Check::Marks(w))
    } else {
        Found::NotWritten(w)
    }
}

fn check_marks(marks: u32, w: u64) -> Found
    ensures { result ≡ check_marks marks w }
{
    if numbers::place_of(w).0 < u64::from(marks) {
        Found::On(Check::Directory(w))
    } else {
        Found::NotWritten(w)
    }
}

fn check_mark(own: Mark, w: u64, mark: Option<Mark>) -> Option<Found>
    ensures { result ≡ check_mark own w mark }
{
    Some(if mark? == own {
        Found::Written
    } else {
        Found::NotWritten(w)
    })
}

// One step of the check of cell i; none where the mark's word lies outside the pool. `seen` is the marks in force that (b) reads.
// In line in each of the operations that make it: as a call it costs a step of the batch two fifths more.
#[inline(always)]
#[tactic(auto, unfolding(crate::specs::Inner::handed))]
pub fn check(z: Terms, seen: u32, lent: Lent<'_>, i: Cell, c: Check) -> Option<Found>
    ensures { result ≡ check z (handed seen) lent.entry.links.now lent.entry.directory.now lent.entry.pool.now i c }
{
    match c {
        Check::Link => Some(check_link(z.p, word(lent.links, numbers::index_of(z, i), 0))),
        Check::Marks(w) => Some(check_marks(seen, w)),
        Check::Directory(w) => {
            let start = start_of(lent.directory, numbers::process_of(w), numbers::place_of(w));
            Some(Found::On(Check::Mark(start, w)))
        }
        Check::Mark(start, w) => {
            let mark = pool_word(lent.pool, start, numbers::place_of(w));
            check_mark(numbers::mark_of(i), w, mark)
        }
    }
}
