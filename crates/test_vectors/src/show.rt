// What a call gave back, in seven lines: the answer, the state, the four memories, and what else it was lent to write to.
use super::memories::Fills;
use super::nine::Nine;
use acts::Answer;
use lanes::State;
use refusals::Refusal;
use std::fmt;
use std::fmt::Write;
use steps::Lent;
use summary::Hour;

// What a call answers that is not refused, of whatever kind it is.
#[derive(Clone, Copy)]
pub enum Said {
    Opened,
    Told(Answer),
    Hour(Hour),
    Text(usize),
    Batch,
    File(usize),
}

// ---- the answer

fn told<W: Write>(f: &mut fmt::Formatter<W>, a: Answer) -> fmt::Result {
    match a {
        Answer::Begun => write!(f, "begun"),
        Answer::Going => write!(f, "going"),
        Answer::Read(v, b, n) => write!(f, "read {v} {} {n}", u8::from(b)),
        Answer::Written(n) => write!(f, "written {n}"),
        Answer::Asked(b, n) => write!(f, "asked {} {n}", u8::from(b)),
    }
}

impl fmt::Display for Said {
    fn fmt<W: Write>(&self, f: &mut fmt::Formatter<W>) -> fmt::Result {
        match *self {
            Said::Opened => write!(f, "open ok"),
            Said::Told(a) => told(f, a),
            Said::Hour(h) => write!(f, "hour {} {} {}", h.peak, h.mean, h.count),
            Said::Text(n) => write!(f, "text {n}"),
            Said::Batch => write!(f, "batch"),
            Said::File(n) => write!(f, "file {n}"),
        }
    }
}

// ---- the state

fn state<W: Write>(out: &mut W, s: &State) -> fmt::Result {
    let z = s.terms;
    write!(out, "{} {} {} {} {}", z.p, z.m, z.first, z.step, s.top)?;
    for lane in &s.lanes {
        write!(out, " {}", Nine::from(*lane))?;
    }
    out.write_str("\n")
}

// The answer and the state after it.
pub fn answered<W: Write>(out: &mut W, s: &State, said: Result<Said, Refusal>) -> fmt::Result {
    match said {
        Ok(said) => writeln!(out, "{said}")?,
        Err(r) => writeln!(out, "refused {}", refusals::number(r))?,
    }
    state(out, s)
}

// ---- a memory

// Words that are looked at together: most are the fill.
const PART: usize = 64;

fn differs<T: Copy + Into<u64>>(part: &[T], fill: u64) -> bool {
    let mut bits: u64 = 0;
    for w in part {
        let w: u64 = (*w).into();
        bits |= w ^ fill;
    }
    bits != 0
}

// Each word of a part that differs from the fill, from word `at` on.
fn exceptions<W: Write, T: Copy + Into<u64>>(
    out: &mut W,
    at: usize,
    part: &[T],
    fill: u64,
) -> fmt::Result {
    for (i, w) in part.iter().enumerate() {
        let w: u64 = (*w).into();
        if w != fill {
            write!(out, " {}:{w}", at.wrapping_add(i))?;
        }
    }
    Ok(())
}

// Its length, and each word that differs from its fill.
pub fn memory<W: Write, T: Copy + Into<u64>>(
    out: &mut W,
    name: &str,
    words: &[T],
    fill: T,
) -> fmt::Result {
    let fill: u64 = fill.into();
    write!(out, "{name} {}", words.len())?;
    // An index of a slice never wraps.
    let mut at: usize = 0;
    for part in words.chunks(PART) {
        if differs(part, fill) {
            exceptions(out, at, part, fill)?;
        }
        at = at.wrapping_add(PART);
    }
    out.write_str("\n")
}

// The lines of the four memories.
pub fn memories<W: Write>(out: &mut W, fills: Fills, lent: Lent<'_>) -> fmt::Result {
    memory(out, "readings", lent.readings, fills.readings)?;
    memory(out, "links", lent.links, fills.links)?;
    memory(out, "directory", lent.directory, fills.directory)?;
    memory(out, "pool", lent.pool, fills.pool)
}
