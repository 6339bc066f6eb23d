// A grid at rest as RFC 4180 text in a lent buffer, for a spreadsheet.
#![tactic(auto)]

ghost use Rattle.std.specs.Prelude.{◌≡◌, length};
ghost use Rattle.steps.specs.Memory.{words};
ghost use Rattle.planners_text.specs.PlannersText.{text_of, page, put_text, write_of};

mod cells;

use acts::opens;
use lanes::State;
use refusals::Refusal;
use steps::Lent;

// Writes the text, which has n bytes, where there is room for all of it; how many bytes were written.
fn put_text(s: State, lent: Lent<'_>, n: usize, out: &mut [u8]) -> Result<usize, Refusal>
    requires { n ≡ length (text_of s (words lent)) }
    ensures { page result out.new ≡ put_text s (words lent.entry) out.old }
{
    if out.len() < n {
        return Err(Refusal::NoRoom);
    }
    let start = byte_lists::put_bytes(out, 0, b"quarter,load\r\n").unwrap_or(0);
    let end = cells::put_lines(s, lent, start, out);
    Ok(end)
}

// Writes the written cells of a grid with their readings, a line each, below a header. The first pass looks at every cell, so
// that a refusal writes nothing. The state and the memories are only read.
pub fn write_text(s: State, lent: Lent<'_>, out: &mut [u8]) -> Result<usize, Refusal>
    ensures { page result out.new ≡ write_of s (words lent.entry) out.old }
{
    let shown = quiet::scan_of(s);
    if shown.is_unfit() {
        return Err(Refusal::OutOfRange);
    }
    if !opens::lengths_fit(s.terms, lent) {
        return Err(Refusal::OtherLengths);
    }
    if shown.is_at_work() {
        return Err(Refusal::AtWork);
    }
    match cells::measure(s, lent) {
        None => Err(Refusal::OutOfRange),
        Some(n) => put_text(s, lent, n, out),
    }
}
