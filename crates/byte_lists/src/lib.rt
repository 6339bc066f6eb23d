// Bytes in lists and buffers: numbers at a width, decimal numbers, bytes put into a lent buffer.
#![tactic(auto)]

ghost use Rattle.std.specs.Prelude.{◌≡◌};
ghost use Rattle.byte_lists.specs.Bytes.{decimal, placed, put_of};
ghost use Rattle.byte_lists.specs.Lines.{so_far};

pub mod line;

use line::{Line, ROOM};

// Where the bytes end that were put; or there was no room for all of them, and nothing was written.
pub fn put_bytes(out: &mut [u8], at: usize, bytes: &[u8]) -> Option<usize>
    ensures { placed result out.new ≡ put_of out.old at bytes.now }
{
    let end = at.checked_add(bytes.len())?;
    if out.len() < end {
        return None;
    }
    out[at..end].copy_from_slice(bytes);
    Some(end)
}

// A line that is done.
pub fn put_line(out: &mut [u8], at: usize, l: Line) -> Option<usize>
    ensures { placed result out.new ≡ put_of out.old at (so_far l) }
{
    put_bytes(out, at, &l.bytes[..l.len.min(ROOM)])
}

pub fn put_decimal(out: &mut [u8], at: usize, n: u64) -> Option<usize>
    ensures { placed result out.new ≡ put_of out.old at (decimal n) }
{
    put_line(out, at, Line::new().number(n))
}
