// The schedule file: its header and its records, or the refusal.
#![tactic(auto)]

ghost use Rattle.std.specs.Prelude.{◌≡◌, ◌≤◌, length};
ghost use Rattle.logic.specs.Below.{below};
ghost use Rattle.qhs.specs.Qhs.{marked, header_of, terms_of, record_at, kind_fits, counts_as, read_in, read_of};
ghost use Rattle.qhs.specs.Inner.{Sound, opened_as, records_as};

mod fields;

use numbers::Terms;
use refusals::Refusal;

// Where the files of a version have their parts: lengths, places and widths in bytes.
#[derive(Clone, Copy)]
pub struct Layout {
    pub version: u64,
    // The header's length, and how far a record starts after the one before.
    pub header: usize,
    pub stride: usize,
    // How wide a number of cells is: the header's count of them, and a record's cell.
    pub cell: usize,
    // Where the header has first, step and the fill.
    pub first: usize,
    pub step: usize,
    pub fill: usize,
    // Where a record has its value.
    pub value: usize,
}

pub const VERSION_1: Layout = Layout {
    version: 1,
    header: 24,
    stride: 8,
    cell: 2,
    first: 8,
    step: 12,
    fill: 16,
    value: 4,
};

// What the header says.
#[derive(Clone, Copy)]
pub struct Header {
    pub p: u32,
    pub m: u32,
    pub first: u32,
    pub step: u32,
    pub fill: u64,
}

// A record's fields, as the file has them: a kind is a byte, since a record is read from any bytes, those of no `Kind` too.
#[derive(Clone, Copy)]
pub struct Record {
    pub kind: u8,
    pub process: u8,
    pub cell: u32,
    pub value: u32,
}

// What a file says that is not refused: its header, and how many records it has.
#[derive(Clone, Copy)]
pub struct Schedule {
    pub header: Header,
    pub records: usize,
}

// A file's length at the most, and one byte more: the room in which a longer one is seen to be.
pub const FILE_BYTES: usize = 65536;

pub const INPUT: usize = FILE_BYTES + 1;

// The records that a file has at the most.
pub const FILE_RECORDS: usize = (FILE_BYTES - VERSION_1.header) / VERSION_1.stride;

// A file's cells at the most.
pub const FILE_CELLS: u32 = 2040;

// What a record is for: the byte that a file has for it.
#[derive(Clone, Copy, PartialEq, Eq)]
pub enum Kind {
    Step = 0,
    Read = 1,
    Write = 2,
    Asked = 3,
}

// The last of the kinds.
pub const LAST_KIND: u8 = Kind::Asked as u8;

// Whether the file starts with "QHS".
fn marked(bytes: &[u8]) -> bool
    requires { 3 ≤ length bytes.now }
    ensures { result ≡ marked bytes.now }
{
    bytes[0] == b'Q' && bytes[1] == b'H' && bytes[2] == b'S'
}

fn header_of(l: Layout, bytes: &[u8]) -> Header
    requires { Sound l }
    ensures { result ≡ header_of l bytes.now }
{
    Header {
        p: fields::word_at(bytes, 5, 1),
        m: fields::word_at(bytes, 6, l.cell),
        first: fields::word_at(bytes, l.first, 4),
        step: fields::word_at(bytes, l.step, 4),
        fill: fields::number_at(bytes, l.fill, 8),
    }
}

// What a grid of this header is opened with. No `From`: the statements name the definition `terms_of`, and each call reads by it.
pub fn terms_of(h: Header) -> Terms
    ensures { result ≡ terms_of h }
{
    Terms {
        p: h.p,
        m: h.m,
        first: h.first,
        step: h.step,
    }
}

// Record k, numbered from 0. A byte past the end counts as 0.
pub fn record_at(bytes: &[u8], k: usize) -> Record
    ensures { result ≡ record_at bytes.now k }
{
    let l = VERSION_1;
    let at = fields::start_of(l, bytes.len(), k);
    Record {
        kind: fields::byte_at(bytes, at),
        process: fields::byte_at(bytes, at + 1),
        cell: fields::word_at(bytes, at + 2, l.cell),
        value: fields::word_at(bytes, at + l.value, 4),
    }
}

// Whether the first n records are of known kinds.
fn kinds_fit(l: Layout, bytes: &[u8], n: usize) -> bool
    requires { Sound l }
    ensures { result ≡ below n (kind_fits l bytes.now) }
{
    for k in 0..n {
        let at = fields::start_of(l, bytes.len(), k);
        if LAST_KIND < fields::byte_at(bytes, at) {
            return false;
        }
    }
    true
}

// Open's first two refusals.
pub fn counts_of(p: u32, m: u32) -> Result<(), Refusal>
    ensures { result ≡ counts_as p m }
{
    if !numbers::processes_fit(p) {
        return Err(Refusal::ProcessCount);
    }
    if !numbers::cells_fit(m) {
        return Err(Refusal::CellCount);
    }
    Ok(())
}

// A file whose records are in order is held to what open asks of p and m.
fn opened(header: Header, records: usize) -> Result<Schedule, Refusal>
    ensures { result ≡ opened_as header records }
{
    counts_of(header.p, header.m)?;
    Ok(Schedule { header, records })
}

// A file whose header is in order is held to its records, and then to open.
fn records_of(l: Layout, bytes: &[u8], header: Header) -> Result<Schedule, Refusal>
    requires { Sound l × (l.header ≤ length bytes.now) }
    ensures { result ≡ records_as l bytes.now header }
{
    let body = bytes.len() - l.header;
    if body % l.stride != 0 {
        return Err(Refusal::RaggedRecords);
    }
    let records = body / l.stride;
    if !kinds_fit(l, bytes, records) {
        return Err(Refusal::RecordKind);
    }
    opened(header, records)
}

// Reads a file laid out so.
fn read_in(l: Layout, bytes: &[u8]) -> Result<Schedule, Refusal>
    requires { Sound l }
    ensures { result ≡ read_in l bytes.now }
{
    if FILE_BYTES < bytes.len() {
        return Err(Refusal::FileTooLong);
    }
    if bytes.len() < l.header {
        return Err(Refusal::NotASchedule);
    }
    if !marked(bytes) {
        return Err(Refusal::NotASchedule);
    }
    if fields::number_at(bytes, 3, 2) != l.version {
        return Err(Refusal::Version);
    }
    let header = header_of(l, bytes);
    if FILE_CELLS < header.m {
        return Err(Refusal::TooManyCells);
    }
    records_of(l, bytes, header)
}

// Reads a file of any bytes: the first refusal that holds is given.
pub fn read(bytes: &[u8]) -> Result<Schedule, Refusal>
    ensures { result ≡ read_of bytes.now }
{
    read_in(VERSION_1, bytes)
}
