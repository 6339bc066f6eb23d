// From a reader into lent bytes, and a program from its input to its output.
#![tactic(auto)]

ghost use Rattle.std.specs.Io.KnownBytes.{Consumes, IsAtEnd};
ghost use Rattle.std.specs.Prelude.{ℕ, ◌<◌, ◌≤◌, IfOk, OnErr, length, take};

use std::io;
use std::io::{Print, Read};

// Reads until buf is full or the input ends; how many bytes came, all at the start of buf. On an empty buf it makes no call. An error
// is the reader's own; what was read before it stands at the start of buf too.
pub fn read_full<R: Read>(from: &mut R, buf: &mut [u8]) -> io::Result<usize>
    ensures bound { IfOk result (λ n. n ≤ length buf.new) }
    ensures bytes { IfOk result (λ n. Consumes (R.remaining from.old) (R.remaining from.new) (take n buf.new)) }
    ensures end { IfOk result (λ n. n < length buf.new → IsAtEnd (R.remaining from.new)) }
    ensures err { OnErr result ((n : ℕ) × (n ≤ length buf.new)
        × Consumes (R.remaining from.old) (R.remaining from.new) (take n buf.new)) }
{
    let mut done = 0;
    // no `for`: the step is what the reader gives
    while done < buf.len() {
        let n = from.read(&mut buf[done..])?;
        if n == 0 {
            break;
        }
        done += n;
    }
    Ok(done)
}

// Runs a program from all of the input to its output: `run` is handed the bytes read, and says where those end that it has put into
// `out`. Nothing is written where it says None, nor where that lies past the buffer. What was read, if it fails too, stands at the start of
// `file`.
pub fn pipe<R: Read, P: Print, F>(
    from: &mut R,
    to: &P,
    file: &mut [u8],
    out: &mut [u8],
    run: F,
) -> io::Result<()>
where
    F: FnOnce(&[u8], &mut [u8]) -> Option<usize>,
    requires { F.IsAlwaysCallable run }
    ensures { (n : ℕ) × (n ≤ length file.new) × Consumes (R.remaining from.old) (R.remaining from.new) (take n file.new) }
{
    let n = read_full(from, file)?;
    if let Some(end) = run(&file[..n], out)
        && let Some(bytes) = out.get(..end)
    {
        to.write_all(bytes)?;
    }
    Ok(())
}
