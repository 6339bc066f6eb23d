// The planners' program without its input and output: from a file's bytes to the bytes that it prints.
#![tactic(auto)]

ghost use Rattle.std.specs.Prelude.{◌≡◌};
ghost use Rattle.steps.specs.Memory.{words_mut};
ghost use Rattle.byte_lists.specs.Bytes.{placed};
ghost use Rattle.sheet.specs.Sheet.{left, sheet_of};

use play::{ends, memories};
use qhs::Schedule;
use steps::LentMut;

// Plays a schedule on a grid in the lent memories, and writes its text.
fn run(bytes: &[u8], file: Schedule, lent: &mut LentMut<'_>, out: &mut [u8]) -> Option<usize>
    ensures { placed result out.new ≡ left bytes.now file.header file.records (words_mut lent.old) out.old }
{
    let s = ends::state_after(bytes, file, lent);
    match planners_text::write_text(s, lent.as_ref(), out) {
        Ok(end) => Some(end),
        Err(r) => text::put_refused(out, 0, r),
    }
}

// Writes what the program prints for a file of these bytes.
pub fn sheet(bytes: &[u8], out: &mut [u8]) -> Option<usize>
    ensures { placed result out.new ≡ sheet_of bytes.now out.old }
{
    match qhs::read(bytes) {
        Err(r) => text::put_file_refused(out, 0, r),
        Ok(file) => memories::with_filled(
            file.header,
            out,
            |lent, out|
                ensures { placed result out.new
                    ≡ left bytes.entry.now file.header file.records (words_mut lent.old) out.old }
            { run(bytes, file, lent, out) },
        ),
    }
}
