// For the benchmark's C program: a list of begins and steps, through the batch call.
#![tactic(auto)]

use numbers::{Mark, Terms};
use steps::LentMut;

// C hands in slices, each by itself.
// Opens a grid, and makes the calls of a list; an answer goes into a word for each. Gives the pool's top.
#[unsafe(no_mangle)]
pub extern "C" fn grid_list(
    readings: &mut [u32],
    links: &mut [u64],
    directory: &mut [u32],
    pool: &mut [Mark],
    kinds: &[u8],
    processes: &[u32],
    cells: &[u32],
    values: &[u32],
    answers: &mut [u64],
    p: u32,
    m: u32,
) -> u32 {
    let z = Terms {
        p,
        m,
        first: 7,
        step: 3,
    };
    let mut lent = LentMut {
        readings,
        links,
        directory,
        pool,
    };
    let o = grid::open(z, lent.as_ref());
    let s = batch::run(o.state, kinds, processes, cells, values, answers, &mut lent);
    s.top
}
