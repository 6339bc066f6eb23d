// Reads of one cell: what one step costs by itself.
use acts::{Ask, Stepped};
use lanes::State;
use numbers::{Cell, Mark, Process};
use steps::LentMut;

// Begins a read of cell 0 and takes one step of it.
fn read_one(s: State, q: u32, lent: &mut LentMut<'_>) -> Stepped {
    let b = grid::begin(s, Process(q), Ask::Read(Cell(0)));
    grid::step(b.state, Process(q), lent)
}

// The same, and four steps more. Each state is handed on as it is, and stored in no variable: that is what the benchmark counts, and
// a loop in place of the two functions would store it.
fn read_five(s: State, q: u32, lent: &mut LentMut<'_>) -> Stepped {
    let b = grid::begin(s, Process(q), Ask::Read(Cell(0)));
    let c = grid::step(b.state, Process(q), lent);
    let d = grid::step(c.state, Process(q), lent);
    let e = grid::step(d.state, Process(q), lent);
    let f = grid::step(e.state, Process(q), lent);
    grid::step(f.state, Process(q), lent)
}

fn read(five: bool, s: State, q: u32, lent: &mut LentMut<'_>) -> Stepped {
    if five {
        read_five(s, q, lent)
    } else {
        read_one(s, q, lent)
    }
}

fn ready(five: bool, p: u32, m: u32, q: u32, lent: &mut LentMut<'_>) -> State {
    let s = super::opened(p, m, 0, lent);
    if five {
        // a write takes seven steps where the old bytes are all one bits
        let ask = Ask::Write(Cell(0), 9);
        return super::begun(s, q, ask, 7, lent);
    }
    s
}

// C hands in slices, each by itself.
// Opens a grid and reads cell 0 for each lent word, which gets the outcome: five steps of a written cell, or one of a cell that
// is not written. What four steps more cost is what a step costs by itself.
#[unsafe(no_mangle)]
pub extern "C" fn grid_reads(
    readings: &mut [u32],
    links: &mut [u64],
    directory: &mut [u32],
    pool: &mut [Mark],
    outcomes: &mut [u64],
    p: u32,
    m: u32,
    q: u32,
    steps: u32,
) -> u32 {
    let five = steps == 5;
    let mut lent = LentMut {
        readings,
        links,
        directory,
        pool,
    };
    let mut s = ready(five, p, m, q, &mut lent);
    for outcome in outcomes.iter_mut() {
        let r = read(five, s, q, &mut lent);
        s = r.state;
        *outcome = super::word_of(r.answer);
    }
    s.top
}
