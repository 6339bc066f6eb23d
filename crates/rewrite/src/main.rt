// The rewriting program: one schedule file from standard input, the same file to standard output with the ignored fields put to zero.
#![tactic(auto)]

mod again;

use std::io;

fn main(rt: HostRuntime) -> io::Result<()> {
    let mut file = [0; qhs::INPUT];
    let mut out = [0; qhs::FILE_BYTES];
    streams::pipe(&mut rt.reader(), &rt, &mut file, &mut out, again::again)
}
