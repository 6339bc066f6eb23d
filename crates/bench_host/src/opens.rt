// Opening, by itself. The benchmark takes the second loop's count from the first's.
use acts::{Ask, Stepped};
use lanes::State;
use numbers::{Cell, Mark, Process};
use steps::Lent;

// Never in line, and handed where the state lies: so that the compiler makes the whole state for it, and no copy in one loop alone.
#[inline(never)]
fn begun(s: &State) -> Stepped {
    grid::begin(*s, Process(0), Ask::Read(Cell(0)))
}

// Opens n grids, and begins a read in each: the state that open gives is then made in full, and not only what is looked at.
// Gives a sum over the states.
#[unsafe(no_mangle)]
pub extern "C" fn grid_opens(
    readings: &[u32],
    links: &[u64],
    directory: &[u32],
    pool: &[Mark],
    p: u32,
    m: u32,
    n: u32,
) -> u32 {
    let lent = Lent {
        readings,
        links,
        directory,
        pool,
    };
    let mut sum: u32 = 0;
    for i in 0..n {
        let o = grid::open(super::terms(p, m, i), lent);
        sum = sum.wrapping_add(begun(&o.state).state.terms.first);
    }
    sum
}

// Opens one grid and begins the same read n times: what of the above is not the opening.
#[unsafe(no_mangle)]
pub extern "C" fn grid_begins(
    readings: &[u32],
    links: &[u64],
    directory: &[u32],
    pool: &[Mark],
    p: u32,
    m: u32,
    n: u32,
) -> u32 {
    let lent = Lent {
        readings,
        links,
        directory,
        pool,
    };
    let o = grid::open(super::terms(p, m, 7), lent);
    let mut sum: u32 = 0;
    for _ in 0..n {
        sum = sum.wrapping_add(begun(&o.state).state.terms.first);
    }
    sum
}
