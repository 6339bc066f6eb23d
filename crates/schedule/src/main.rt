// The schedule program: one file from standard input, its output to standard output.
#![tactic(auto)]

use std::io;

fn main(rt: HostRuntime) -> io::Result<()> {
    let mut file = [0; qhs::INPUT];
    let mut out = [0; play::OUTPUT];
    streams::pipe(&mut rt.reader(), &rt, &mut file, &mut out, play::play)
}
