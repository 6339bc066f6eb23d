// The shared word that a step touches, as code: for these examples alone.
ghost use Rattle.std.specs.Prelude.{◌≡◌, ◌+◌};
ghost use Rattle.numbers.specs.Numbers.{offset_of};
ghost use Rattle.steps.specs.Touched.{touched_in, touched_marking, touched};

use lanes::{Check, Marking, Op};
use numbers::{Cell, Place, Process, Terms};
use steps::Word;

// The word of a place in the segment that starts there.
#[tactic(auto, using(crate::proofs::TouchLaws::offset_half))]
fn pool_word(start: u32, n: Place) -> Word
    ensures { result ≡ Word.Pool (start + offset_of n.0) }
{
    Word::Pool(start as usize + numbers::offset_of(n) as usize)
}

fn touched_in(z: Terms, i: Cell, c: Check) -> Word
    ensures { result ≡ touched_in z i c }
{
    match c {
        Check::Link => Word::Link(numbers::index_of(z, i)),
        Check::Marks(w) => Word::Marks(numbers::process_of(w).0),
        Check::Directory(w) => {
            let s = numbers::segment_of(numbers::place_of(w));
            Word::Directory(numbers::directory_word(numbers::process_of(w), s))
        }
        Check::Mark(start, w) => pool_word(start, numbers::place_of(w)),
    }
}

fn touched_marking(z: Terms, q: Process, directory: &[u32], i: Cell, k: Marking) -> Word
    ensures { result ≡ touched_marking z q.0 directory.now i k }
{
    match k {
        Marking::Draw(_, _, _) => Word::Top,
        Marking::Enter(_, _, _, n) => Word::Directory(numbers::directory_word(
            q,
            numbers::segment_of(n),
        )),
        Marking::Tombstone(_, n) | Marking::Mark(_, n) => {
            pool_word(steps::look::start_of(directory, q, n), n)
        }
        Marking::Force(_, _) | Marking::TakeBack(_) => Word::Marks(q.0),
        Marking::Swap(_, _) => Word::Link(numbers::index_of(z, i)),
    }
}

// The one shared word that the next step of process q touches, its operation being o.
pub fn touched(z: Terms, q: Process, directory: &[u32], o: Op) -> Word
    ensures { result ≡ touched z q.0 directory.now o }
{
    match o {
        Op::Idle => Word::Top,
        Op::Read(i, c) | Op::Asked(i, c) | Op::Write(i, c) => touched_in(z, i, c),
        Op::Reading(i) | Op::Store(i, _) => Word::Reading(numbers::index_of(z, i)),
        Op::Marking(i, k) => touched_marking(z, q, directory, i, k),
    }
}
