// The rewriting program without its input and output: from a file's bytes to the bytes that it prints.
ghost use Rattle.std.specs.Prelude.{◌≡◌, ◌≤◌};
ghost use Rattle.qhs.specs.Qhs.{most_records};
ghost use Rattle.byte_lists.specs.Bytes.{placed};
ghost use Rattle.qhs_writer.specs.Writer.{fields, write_of};
ghost use Rattle.qhs_writer.specs.Again.{fields_of};
ghost use Rattle.rewrite.specs.Again.{shown, written, again_of};
ghost use Rattle.rewrite.specs.Inner.{Room};

use qhs::{FILE_RECORDS, Header, Schedule};

// Takes the fields of the first n records, each into its own slice.
fn gather(
    bytes: &[u8],
    n: usize,
    kinds: &mut [u8],
    processes: &mut [u8],
    cells: &mut [u16],
    values: &mut [u32],
)
    requires { Room n kinds.old processes.old cells.old values.old }
    ensures { fields kinds.new processes.new cells.new values.new ≡ fields_of bytes.now n }
{
    for k in 0..n {
        let r = qhs::record_at(bytes, k);
        kinds[k] = r.kind;
        processes[k] = r.process;
        cells[k] = r.cell as u16;
        values[k] = r.value;
    }
}

// Writes the file of a header and records; what is printed of it.
fn printed(
    h: Header,
    kinds: &[u8],
    processes: &[u8],
    cells: &[u16],
    values: &[u32],
    out: &mut [u8],
) -> Option<usize>
    ensures { placed result out.new
        ≡ shown (write_of h (fields kinds.now processes.now cells.now values.now) out.old) }
{
    match qhs_writer::write(h, kinds, processes, cells, values, out) {
        Ok(end) => Some(end),
        Err(refusal) => text::put_file_refused(out, 0, refusal),
    }
}

// Writes the records again, by way of the lent slices.
fn run(
    bytes: &[u8],
    file: Schedule,
    kinds: &mut [u8],
    processes: &mut [u8],
    cells: &mut [u16],
    values: &mut [u32],
    out: &mut [u8],
) -> Option<usize>
    requires { Room file.records kinds.old processes.old cells.old values.old }
    ensures { placed result out.new ≡ written bytes.now file.header file.records out.old }
{
    gather(bytes, file.records, kinds, processes, cells, values);
    printed(file.header, kinds, processes, cells, values, out)
}

// Lends room for the fields of the records of the longest file.
fn schedule(bytes: &[u8], file: Schedule, out: &mut [u8]) -> Option<usize>
    requires { file.records ≤ most_records }
    ensures { placed result out.new ≡ written bytes.now file.header file.records out.old }
{
    let n = file.records;
    let mut kinds = [0u8; FILE_RECORDS];
    let mut processes = [0u8; FILE_RECORDS];
    let mut cells = [0u16; FILE_RECORDS];
    let mut values = [0u32; FILE_RECORDS];
    run(
        bytes,
        file,
        &mut kinds[..n],
        &mut processes[..n],
        &mut cells[..n],
        &mut values[..n],
        out,
    )
}

// Writes what the program prints for a file of these bytes.
pub fn again(bytes: &[u8], out: &mut [u8]) -> Option<usize>
    ensures { placed result out.new ≡ again_of bytes.now out.old }
{
    match qhs::read(bytes) {
        Err(r) => text::put_file_refused(out, 0, r),
        Ok(file) => schedule(bytes, file, out),
    }
}
