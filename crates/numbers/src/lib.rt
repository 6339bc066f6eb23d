// The numbers of the grid: cells, places and processes, segments, links and the filling rule.
#![tactic(auto)]

ghost use Rattle.std.specs.Prelude.{◌≡◌, ◌%◌};
ghost use Rattle.numbers.specs.Numbers.{most_marks, directory_words, directory_word, pool_words, segment_of, offset_of, size_of};
ghost use Rattle.numbers.specs.Numbers.{link_of, process_of, place_of, product_of, fill_of};
ghost use Rattle.numbers.specs.Cells.{one_to, processes_fit, cells_fit, cell_fits, mark_of, index_of, fill_at};

// A cell's number.
#[derive(Clone, Copy)]
pub struct Cell(pub u32);

// A place in a lane; a link may name any place of 50 bits, whether or not the lane has it.
#[derive(Clone, Copy)]
pub struct Place(pub u64);

// A process's number. Not a `Cell`'s twin: the types keep the two apart.
#[derive(Clone, Copy)]
pub struct Process(pub u32);

// What a grid is opened with: its processes, its cells, and the filling rule.
#[derive(Clone, Copy)]
pub struct Terms {
    pub p: u32,
    pub m: u32,
    pub first: u32,
    pub step: u32,
}

// What a pool word holds: the mark of a cell, or the tombstone.
pub type Mark = u32;

// Processes at the most, and the lanes that a state has room for.
pub const PROCESSES: u32 = 16;

pub const LANES: usize = PROCESSES as usize;

// Cells at the most.
pub const CELLS: u32 = 65536;

// Segments of a lane at the most.
pub const SEGMENTS: u32 = 17;

// An operation's own steps so far, at the most.
pub const STEPS: u8 = 10;

// Words of the pool for each cell, and for each process.
pub const CELL_MARKS: usize = 4;

pub const PROCESS_MARKS: usize = 2;

// What a pool word holds where no cell's mark may stand.
pub const TOMBSTONE: Mark = u32::MAX;

// A link's process is one of 2^14, its place one of 2^50.
pub const LINK_PROCESSES: u64 = 1 << 14;

pub const LINK_PLACES: u64 = 1 << 50;

// The marks in force of a lane at the most, in a grid of m cells. Lengths are casts here and below: usize has no From of u32.
pub fn most_marks(m: u32) -> usize
    ensures { result ≡ most_marks m }
{
    2 * (m as usize) + 1
}

// The directory's length, for p processes.
pub fn directory_words(p: u32) -> usize
    ensures { result ≡ directory_words p }
{
    (SEGMENTS as usize) * (p as usize)
}

// Which directory word says where segment s of process q starts.
pub fn directory_word(q: Process, s: u32) -> usize
    ensures { result ≡ directory_word q.0 s }
{
    (SEGMENTS as usize) * (q.0 as usize) + (s as usize)
}

// The pool's length, for p processes and m cells.
pub fn pool_words(p: u32, m: u32) -> usize
    ensures { result ≡ pool_words p m }
{
    CELL_MARKS * (m as usize) + PROCESS_MARKS * (p as usize)
}

// The segment of a place: floor(log2(n + 2)) - 1, taken of (n + 2) / 2 because n + 2 may pass 64 bits.
#[tactic(auto, using(crate::proofs::Made::segment_is))]
pub fn segment_of(n: Place) -> u32
    ensures { result ≡ segment_of n.0 }
{
    (n.0 / 2 + 1).ilog2()
}

// Where in its segment a place lies: the segment's first place is 2 * (2^s - 1).
#[tactic(auto, using(crate::proofs::Laws::segment_word, crate::proofs::Made::power_some, crate::proofs::Made::power_low, crate::proofs::Made::offset_split))]
pub fn offset_of(n: Place) -> u64
    ensures { result ≡ offset_of n.0 }
{
    n.0 - 2 * ((1u64 << segment_of(n)) - 1)
}

// How many words segment s has; 0 where 64 bits cannot hold it, which no lane reaches.
#[tactic(auto, using(crate::proofs::Made::size_twice, crate::proofs::Made::size_wide))]
pub fn size_of(s: u32) -> u64
    ensures { result ≡ size_of s % 18446744073709551616 }
{
    if s < 63 { 2u64 << s } else { 0 }
}

// The link of a process and a place; of either number only the bits that a link has room for.
pub fn link_of(q: Process, n: Place) -> u64
    ensures { result ≡ link_of q.0 n.0 }
{
    u64::from(q.0) % LINK_PROCESSES * LINK_PLACES + n.0 % LINK_PLACES
}

// The process that a link names.
pub fn process_of(w: u64) -> Process
    ensures { result.0 ≡ process_of w }
{
    Process((w / LINK_PLACES) as u32)
}

// The place that a link names.
pub fn place_of(w: u64) -> Place
    ensures { result.0 ≡ place_of w }
{
    Place(w % LINK_PLACES)
}

// a * b, modulo 2^32: std's product, which `product_of` of the specs names.
pub fn wrapping_mul(a: u32, b: u32) -> u32
    ensures { result ≡ product_of a b }
{
    a.wrapping_mul(b)
}

// The filling rule at a number.
pub fn fill(first: u32, step: u32, n: u32) -> u32
    ensures { result ≡ fill_of first step n }
{
    first.wrapping_add(wrapping_mul(step, n))
}

fn one_to(n: u32, most: u32) -> bool
    ensures { result ≡ one_to n most }
{
    (1..=most).contains(&n)
}

// Whether p is a number of processes that a grid may have,
pub fn processes_fit(p: u32) -> bool
    ensures { result ≡ processes_fit p }
{
    one_to(p, PROCESSES)
}

// and m a number of cells.
pub fn cells_fit(m: u32) -> bool
    ensures { result ≡ cells_fit m }
{
    one_to(m, CELLS)
}

// Whether a cell is one of the grid's.
pub fn cell_fits(z: Terms, i: Cell) -> bool
    ensures { result ≡ cell_fits z i }
{
    i.0 < z.m
}

// The mark that stands for a cell;
pub fn mark_of(i: Cell) -> Mark
    ensures { result ≡ mark_of i }
{
    i.0
}

// where its reading and its link lie in their memories;
pub fn index_of(z: Terms, i: Cell) -> usize
    ensures { result ≡ index_of z i }
{
    i.0 as usize
}

// and the reading that it holds before any write.
pub fn fill_at(z: Terms, i: Cell) -> u32
    ensures { result ≡ fill_at z i }
{
    fill(z.first, z.step, i.0)
}
