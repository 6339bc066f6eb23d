// The parts of a file into a lent buffer: little-endian numbers, the header, the records.
ghost use Rattle.std.specs.Prelude.{◌≡◌, ◌+◌, ◌*◌, ◌≤◌, length};
ghost use Rattle.qhs_writer.specs.Writer.{header_bytes, record_bytes, fields, mark, front_bytes, back_bytes, head_bytes, entry_bytes, entries_below, needed};
ghost use Rattle.byte_lists.specs.Bytes.{bytes_of};
ghost use Rattle.qhs_writer.specs.Inner.{Laid, Within};

use super::Entry;
use qhs::{Header, Kind, VERSION_1};

// The little-endian bytes of a number, `width` of them.
fn number(out: &mut [u8], at: usize, width: usize, n: u64) -> usize
    requires { at + width ≤ length out.old }
    ensures { Laid out.old at width (bytes_of width n)
        out.new result }
{
    let mut rest = n;
    for i in 0..width {
        out[at + i] = (rest % 256) as u8;
        rest /= 256;
    }
    at + width
}

// Bytes 0 to 2.
fn mark(out: &mut [u8]) -> usize
    requires { header_bytes ≤ length out.old }
    ensures { Laid out.old 0 3 mark out.new result }
{
    byte_lists::put_bytes(out, 0, b"QHS").unwrap_or(0)
}

// The header up to its sizes. (With `u64::from` in place of the casts its goal stays open, and so do those below.)
fn front(h: Header, out: &mut [u8]) -> usize
    requires { header_bytes ≤ length out.old }
    ensures { Laid out.old 0 8 (front_bytes h) out.new result }
{
    let a = mark(out);
    let b = number(out, a, 2, VERSION_1.version);
    let c = number(out, b, 1, h.p as u64);
    number(out, c, VERSION_1.cell, h.m as u64)
}

// The header's filling rule and its fill.
fn back(h: Header, at: usize, out: &mut [u8]) -> usize
    requires { at + 16 ≤ length out.old }
    ensures { Laid out.old at 16 (back_bytes h) out.new result }
{
    let a = number(out, at, 4, h.first as u64);
    let b = number(out, a, 4, h.step as u64);
    number(out, b, 8, h.fill)
}

pub fn header(h: Header, out: &mut [u8]) -> usize
    requires { header_bytes ≤ length out.old }
    ensures { Laid out.old 0 header_bytes (head_bytes h) out.new result }
{
    let at = front(h, out);
    back(h, at, out)
}

// A record with the fields that its kind doesn't need put to zero: a step needs no cell, and a write alone a value.
fn needed(e: Entry) -> Entry
    ensures { result ≡ needed e }
{
    if e.kind == Kind::Write as u8 {
        return e;
    }
    if e.kind == Kind::Step as u8 {
        return Entry {
            cell: 0,
            value: 0,
            ..e
        };
    }
    Entry { value: 0, ..e }
}

fn entry(e: Entry, at: usize, out: &mut [u8]) -> usize
    requires { at + record_bytes ≤ length out.old }
    ensures { Laid out.old at record_bytes (entry_bytes e) out.new result }
{
    let a = number(out, at, 1, e.kind as u64);
    let b = number(out, a, 1, e.process as u64);
    let c = number(out, b, VERSION_1.cell, e.cell as u64);
    number(out, c, 4, e.value as u64)
}

// The first n records, from byte `start` on.
pub fn entries(
    kinds: &[u8],
    processes: &[u8],
    cells: &[u16],
    values: &[u32],
    n: usize,
    start: usize,
    out: &mut [u8],
) -> usize
    requires { Within (fields kinds.now processes.now cells.now values.now) n start out.old }
    ensures { Laid out.old start (record_bytes * n)
        (entries_below (fields kinds.now processes.now cells.now values.now) n)
        out.new result }
{
    let mut at = start;
    for k in 0..n {
        let e = Entry {
            kind: kinds[k],
            process: processes[k],
            cell: cells[k],
            value: values[k],
        };
        at = entry(needed(e), at, out);
    }
    at
}
