// The schedule program without its input and output: from a file's bytes to the bytes that it prints.
#![tactic(auto)]

ghost use Rattle.std.specs.Prelude.{◌≡◌};
ghost use Rattle.steps.specs.Memory.{words_mut};
ghost use Rattle.byte_lists.specs.Bytes.{placed};
ghost use Rattle.play.specs.Play.{schedule_text, put, play_of};
ghost use Rattle.play.specs.Inner.{Ready};

pub mod ends;
mod lists;
pub mod memories;

use lists::Player;
pub use memories::{CELL_WORDS, DIRECTORY_WORDS, POOL_WORDS};
use qhs::{FILE_RECORDS, Schedule};
use steps::LentMut;

// A line's length at the most, and the room that the longest output takes: a line for the sizes, and one for each record.
const LINE: usize = 27;

pub const OUTPUT: usize = LINE * (FILE_RECORDS + 1);

// Plays a schedule on a grid in the lent memories.
fn run(bytes: &[u8], file: Schedule, lent: &mut LentMut<'_>, out: &mut [u8]) -> Option<usize>
    requires { Ready file.header file.records out.old }
    ensures { placed result out.new
        ≡ put out.old (schedule_text bytes.now file.header file.records (words_mut lent.old)) }
{
    let h = file.header;
    let n = file.records;
    let o = grid::open(qhs::terms_of(h), lent.as_ref());
    let mut p = Player::new(o.state);
    let mut at = text::put_sizes(out, 0, h.p, h.m).unwrap_or(0);
    // No `for` steps by a number that each turn finds.
    while p.next < n {
        let first = p.next;
        let c = p.list(bytes, n, lent);
        at = lists::lines(first, c, &p.words, at, out);
    }
    Some(at)
}

// Writes what the program prints for a file of these bytes; where it ends, or None where the buffer is too short for any.
pub fn play(bytes: &[u8], out: &mut [u8]) -> Option<usize>
    ensures { placed result out.new ≡ play_of out.old bytes.now }
{
    if out.len() < OUTPUT {
        return None;
    }
    match qhs::read(bytes) {
        Err(r) => text::put_file_refused(out, 0, r),
        Ok(file) => memories::with_filled(
            file.header,
            out,
            |lent, out|
                requires { Ready file.header file.records out.old }
                ensures { placed result out.new
                    ≡ put out.old (schedule_text bytes.entry.now file.header file.records (words_mut lent.old)) }
            { run(bytes, file, lent, out) },
        ),
    }
}
