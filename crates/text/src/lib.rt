// The program's lines into a lent buffer: an answer's, and those of a whole output.
#![tactic(auto)]

ghost use Rattle.std.specs.Prelude.{◌≡◌, ◌+◌, ◌≤◌, length};
ghost use Rattle.byte_lists.specs.Bytes.{decimal, placed, put_of};
ghost use Rattle.text.specs.Text.{answer_line, sizes_line, file_refused_line, refused_line};

mod lines;

use acts::Answer;
use byte_lists::put_line;
use refusals::Refusal;

// The line of record k, which was answered a.
pub fn put_answer(out: &mut [u8], at: usize, k: usize, a: Result<Answer, Refusal>) -> Option<usize>
    ensures laid { placed result out.new ≡ put_of out.old at (answer_line k a) }
    ensures short { length (answer_line k a) ≤ length (decimal k) + 23 }
{
    put_line(out, at, lines::answer(k, a))
}

// The first line of a schedule's output.
pub fn put_sizes(out: &mut [u8], at: usize, p: u32, m: u32) -> Option<usize>
    ensures { placed result out.new ≡ put_of out.old at (sizes_line p m) }
{
    put_line(out, at, lines::sizes(p, m))
}

// The only line of a refused file's output.
pub fn put_file_refused(out: &mut [u8], at: usize, r: Refusal) -> Option<usize>
    ensures { placed result out.new ≡ put_of out.old at (file_refused_line r) }
{
    put_line(out, at, lines::file_refused(r))
}

// The only line of an output where the file's grid gives none.
pub fn put_refused(out: &mut [u8], at: usize, r: Refusal) -> Option<usize>
    ensures { placed result out.new ≡ put_of out.old at (refused_line r) }
{
    put_line(out, at, lines::refused(r))
}
