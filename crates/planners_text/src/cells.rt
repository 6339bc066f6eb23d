// The lines of the written cells: how long they are, and the lines themselves.
ghost use Rattle.std.specs.Prelude.{◌≡◌, ◌+◌, ◌≤◌, Some, length};
ghost use Rattle.steps.specs.Memory.{words};
ghost use Rattle.byte_lists.specs.Bytes.{decimal};
ghost use Rattle.planners_text.specs.PlannersText.{line_of, line_as, lines_below};
ghost use Rattle.planners_text.specs.Inner.{Long, Laid, measured_of};

use lanes::State;
use numbers::Cell;
use quiet::Quarter;
use steps::Lent;

// How many digits a number has.
fn digits(n: u32) -> usize
    ensures { Long 10 (decimal n) result }
{
    if n < 10 { 1 } else { digits(n / 10) + 1 }
}

fn length_as(i: u32, q: Quarter) -> usize
    ensures { Long 23 (line_as i (Some q)) result }
{
    if q.written {
        digits(i) + digits(q.reading) + 3
    } else {
        0
    }
}

// The first pass: every cell is looked at, and the lengths of the lines are summed. None where a word of some cell's check lies outside.
pub fn measure(s: State, lent: Lent<'_>) -> Option<usize>
    ensures { result ≡ measured_of s (words lent.entry) }
{
    let mut total: usize = 14;
    for i in 0..s.terms.m {
        let q = quiet::reading_at(s, Cell(i), lent)?;
        total += length_as(i, q);
    }
    Some(total)
}

// With `u64::from` in place of the casts its goal stays open.
fn put_cell(out: &mut [u8], at: usize, i: u32, v: u32) -> usize
    requires { at + length (line_of i v) ≤ length out.old }
    ensures { Laid out.old at (line_of i v) out.new result }
{
    let a = byte_lists::put_decimal(out, at, i as u64).unwrap_or(0);
    let b = byte_lists::put_bytes(out, a, b",").unwrap_or(0);
    let c = byte_lists::put_decimal(out, b, v as u64).unwrap_or(0);
    byte_lists::put_bytes(out, c, b"\r\n").unwrap_or(0)
}

fn put_as(out: &mut [u8], at: usize, i: u32, q: Option<Quarter>) -> usize
    requires { at + length (line_as i q) ≤ length out.old }
    ensures { Laid out.old at (line_as i q) out.new result }
{
    match q {
        Some(q) => {
            if q.written {
                put_cell(out, at, i, q.reading)
            } else {
                at
            }
        }
        None => at,
    }
}

// The second pass: the lines, from byte `start` on.
pub fn put_lines(s: State, lent: Lent<'_>, start: usize, out: &mut [u8]) -> usize
    requires { start + length (lines_below s (words lent) s.terms.m) ≤ length out.old }
    ensures { Laid out.old start (lines_below s (words lent.entry) s.terms.m) out.new result }
{
    let mut at = start;
    for i in 0..s.terms.m {
        let q = quiet::reading_at(s, Cell(i), lent);
        at = put_as(out, at, i, q);
    }
    at
}
