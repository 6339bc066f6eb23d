// The planners' program: one schedule file from standard input, the text of the grid that it leaves to standard output.
#![tactic(auto)]

use play::CELL_WORDS;
use std::io;

// The heading's length, a line's at the most, and the room that the longest text takes: the heading, and a line for each cell.
const HEADING: usize = 14;

const LINE: usize = 17;

const OUTPUT: usize = HEADING + LINE * CELL_WORDS;

fn main(rt: HostRuntime) -> io::Result<()> {
    let mut file = [0; qhs::INPUT];
    let mut out = [0; OUTPUT];
    streams::pipe(&mut rt.reader(), &rt, &mut file, &mut out, sheet::sheet)
}
