// A change of one shared word, stored into the lent memories.
ghost use Rattle.std.specs.Prelude.{◌≡◌, ◌+◌, set};
ghost use Rattle.numbers.specs.Numbers.{offset_of};
ghost use Rattle.steps.specs.Memory.{words_mut, SameLent};
ghost use Rattle.steps.specs.Changes.{memory_after};

use super::{Change, LentMut, look};
use numbers::{Mark, Place};

// The word at i of a memory of either width; outside it nothing is stored. By index: through `get_mut` the proof stays open.
pub fn put<T: Copy>(a: &mut [T], i: usize, v: T)
    ensures { a.new ≡ set a.old i v }
{
    if i < a.len() {
        a[i] = v;
    }
}

// The mark at place n of the segment that starts there: the segment's part of the pool is lent on.
#[tactic(auto, using(crate::proofs::StoreLaws::put_part))]
fn put_mark(pool: &mut [Mark], start: u32, n: Place, mark: Mark)
    ensures { pool.new ≡ set pool.old (start + offset_of n.0) mark }
{
    let from = start as usize;
    if from < pool.len() {
        let end = look::part_end(pool.len(), from, n);
        put(&mut pool[from..end], numbers::offset_of(n) as usize, mark);
    }
}

// The lent memories after a change.
pub fn store(lent: &mut LentMut<'_>, change: Change)
    ensures same { SameLent lent.old lent.new }
    ensures stored { words_mut lent.new ≡ memory_after change (words_mut lent.old) }
{
    match change {
        Change::Reading(i, v) => put(lent.readings, i, v),
        Change::Link(i, w) => put(lent.links, i, w),
        Change::Directory(k, start) => put(lent.directory, k, start),
        Change::Mark(start, n, mark) => put_mark(lent.pool, start, n, mark),
        Change::Nothing | Change::Marks(_) | Change::Top(_, _) => {}
    }
}
