// Reads vectors of the calls on lists from standard input, makes each call, and writes what it gave back.
#![tactic(auto)]

mod call;
mod lists;

use call::Call;
use std::io;
use test_vectors::run;

fn main(rt: HostRuntime) -> io::Result<()> {
    run::run::<Call, _>(&rt)
}
