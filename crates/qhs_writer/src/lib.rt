// The schedule file's writer, version 1: a header and records as bytes in a lent buffer, or the refusal.
#![tactic(auto)]

ghost use Rattle.std.specs.Prelude.{◌≡◌, ◌≤◌, length};
ghost use Rattle.logic.specs.Below.{below};
ghost use Rattle.qhs_writer.specs.Writer.{fields, count, known, page, write_of};
ghost use Rattle.qhs_writer.specs.Inner.{Few, filed_of};

mod put;

use qhs::{FILE_CELLS, FILE_RECORDS, Header, LAST_KIND, VERSION_1};
use refusals::Refusal;

// A record as it is written. Its cell has 16 bits, whatever the reader's has. Its kind is a byte, as the caller's slice has it: `write`
// looks at all of them first.
#[derive(Clone, Copy)]
pub struct Entry {
    pub kind: u8,
    pub process: u8,
    pub cell: u16,
    pub value: u32,
}

// As many records as the shortest slice has.
fn count(kinds: &[u8], processes: &[u8], cells: &[u16], values: &[u32]) -> usize
    ensures { result ≡ count (fields kinds.now processes.now cells.now values.now) }
{
    kinds
        .len()
        .min(processes.len().min(cells.len().min(values.len())))
}

// Whether the first n kinds are known.
fn known(kinds: &[u8], n: usize) -> bool
    requires { n ≤ length kinds.now }
    ensures { result ≡ below n (known kinds.now) }
{
    for k in 0..n {
        if LAST_KIND < kinds[k] {
            return false;
        }
    }
    true
}

// Writes the file of a header and n records that is not refused, if there is room for it.
fn filed(
    h: Header,
    kinds: &[u8],
    processes: &[u8],
    cells: &[u16],
    values: &[u32],
    n: usize,
    out: &mut [u8],
) -> Result<usize, Refusal>
    requires { Few (fields kinds.now processes.now cells.now values.now) n }
    ensures { page result out.new
        ≡ filed_of h (fields kinds.now processes.now cells.now values.now) out.old }
{
    if out.len() < VERSION_1.header + VERSION_1.stride * n {
        return Err(Refusal::NoRoom);
    }
    let start = put::header(h, out);
    let end = put::entries(kinds, processes, cells, values, n, start, out);
    Ok(end)
}

// Writes the file of a header and records; how many bytes it has. The records are handed in as a slice for each field, of any lengths:
// so says `write_of`. Fields that a kind doesn't need are put to zero. A refusal writes nothing.
pub fn write(
    h: Header,
    kinds: &[u8],
    processes: &[u8],
    cells: &[u16],
    values: &[u32],
    out: &mut [u8],
) -> Result<usize, Refusal>
    ensures { page result out.new
        ≡ write_of h (fields kinds.now processes.now cells.now values.now) out.old }
{
    let n = count(kinds, processes, cells, values);
    if FILE_RECORDS < n {
        return Err(Refusal::FileTooLong);
    }
    if FILE_CELLS < h.m {
        return Err(Refusal::TooManyCells);
    }
    if !known(kinds, n) {
        return Err(Refusal::RecordKind);
    }
    qhs::counts_of(h.p, h.m)?;
    filed(h, kinds, processes, cells, values, n, out)
}
