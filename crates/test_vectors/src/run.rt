// All vectors of an input, one after the other.
ghost use Rattle.std.specs.Prelude.{◌≡◌, ◌<◌, All, IfOk, OnErr};

use super::fault::Fault;
use super::limits::{
    CALL, CELL_WORDS, DIRECTORY_WORDS, HEAD, INPUT, LANE_WORDS, PIECE, POOL_WORDS,
};
use super::memories;
use super::memories::Fills;
use super::nine::Nine;
use super::out::Out;
use super::rest::Rest;
use lanes::{Lane, Op, State};
use numbers::{LANES, Mark, Terms};
use std::fmt::Write;
use std::io;
use std::io::Read;
use steps::LentMut;

// The calls of a program, as a vector's first words ask for them.
pub trait Call: TryFrom<[u64; CALL], Error = Fault> + Copy {
    // Makes the call, and writes its seven lines. What it needs besides the memories stands after them.
    fn make<W: Write>(
        self,
        state: State,
        lent: &mut LentMut<'_>,
        fills: Fills,
        rest: &mut Rest<'_>,
        out: &mut W,
    ) -> Result<(), Fault>;
}

// Room for the four memories of any vector.
#[derive(Drop)]
struct Store {
    readings: [u32; CELL_WORDS],
    links: [u64; CELL_WORDS],
    directory: [u32; DIRECTORY_WORDS],
    pool: [Mark; POOL_WORDS],
}

// Four words that fit in 32 bits each.
pub fn arguments(words: [u64; 4]) -> Result<[u32; 4], Fault>
    ensures ok { IfOk result (λ numbers. numbers ≡ words) }
    ensures err { OnErr result (¬ All (λ w. w < 4294967296) words) }
{
    let [a, b, c, d] = words;
    Ok([
        u32::try_from(a)?,
        u32::try_from(b)?,
        u32::try_from(c)?,
        u32::try_from(d)?,
    ])
}

// A vector's call and state; its words after them are left.
fn head<C: Call>(rest: &mut Rest<'_>) -> Result<(C, State), Fault> {
    let mut head = Rest(rest.take(HEAD)?);
    let call = C::try_from(head.array::<CALL>()?)?;
    let [p, m, first, step] = arguments(head.array::<4>()?)?;
    let [top] = head.array::<1>()?;
    let terms = Terms { p, m, first, step };
    let top = u32::try_from(top)?;
    let idle = Lane {
        marks: 0,
        drawn: 0,
        steps: 0,
        op: Op::Idle,
    };
    let mut lanes = [idle; LANES];
    for lane in lanes.iter_mut() {
        *lane = Lane::try_from(Nine::from(head.array::<LANE_WORDS>()?))?;
    }
    Ok((call, State { terms, top, lanes }))
}

// The next vector.
fn one<C: Call, W: Write>(
    rest: &mut Rest<'_>,
    store: &mut Store,
    out: &mut W,
) -> Result<(), Fault> {
    let (call, state) = head::<C>(rest)?;
    let Store {
        readings,
        links,
        directory,
        pool,
    } = store;
    let (readings, of_readings) = memories::lend(rest, readings)?;
    let (links, of_links) = memories::lend(rest, links)?;
    let (directory, of_directory) = memories::lend(rest, directory)?;
    let (pool, of_pool) = memories::lend(rest, pool)?;
    let fills = Fills {
        readings: of_readings,
        links: of_links,
        directory: of_directory,
        pool: of_pool,
    };
    let mut lent = LentMut {
        readings,
        links,
        directory,
        pool,
    };
    call.make(state, &mut lent, fills, rest, out)
}

// Every vector's seven lines, or those up to the first damaged one and then why. Where the input's last word is cut, so is the last vector.
fn all<C: Call, W: Write>(words: &[u64], cut: bool, out: &mut W) {
    let mut store = Store {
        readings: [0; CELL_WORDS],
        links: [0; CELL_WORDS],
        directory: [0; DIRECTORY_WORDS],
        pool: [0; POOL_WORDS],
    };
    let mut rest = Rest(words);
    // a vector has at least a word, so that there are no more of them
    for k in 0..=words.len() {
        if rest.0.is_empty() && !cut {
            return;
        }
        if let Err(fault) = one::<C, W>(&mut rest, &mut store, out) {
            let _ = writeln!(out, "vector {k} damaged: {fault}");
            return;
        }
    }
}

// Some bytes as words, as many as there is room for.
fn words_of(bytes: &[[u8; 8]], words: &mut [u64]) {
    for (word, bytes) in words.iter_mut().zip(bytes) {
        *word = u64::from_le_bytes(*bytes);
    }
}

// What was read of an input.
#[derive(Clone, Copy)]
struct Taken {
    words: usize,
    // its last word is cut
    cut: bool,
    // there is more than there is room for
    long: bool,
}

// The input's words, into room for all of them (INPUT), by a buffer of one piece: one of the whole input would be twice the input.
fn take<R: Read>(from: &mut R, words: &mut [u64]) -> io::Result<Taken> {
    let mut piece = [[0u8; 8]; PIECE];
    let mut taken: usize = 0;
    for part in words.chunks_mut(PIECE) {
        let n = streams::read_full(from, piece.as_flattened_mut())?;
        // it never wraps: there are sixteen pieces
        taken = taken.wrapping_add(n);
        words_of(&piece[..(n / 8).min(PIECE)], part);
        if n < 8 * PIECE {
            break;
        }
    }
    let long = taken == 8 * INPUT && streams::read_full(from, piece.as_flattened_mut())? > 0;
    Ok(Taken {
        words: taken / 8,
        cut: taken % 8 != 0,
        long,
    })
}

// Reads vectors from standard input, makes each call, and writes what it gave back.
pub fn run<C: Call, R: Input + Print>(rt: &R) -> io::Result<()> {
    let mut words = [0u64; INPUT];
    let taken = take(&mut rt.reader(), &mut words)?;
    if taken.long {
        return rt.write_all(b"input over 1048576 bytes\n");
    }
    let mut out = Out::new(rt);
    all::<C, _>(&words[..taken.words.min(INPUT)], taken.cut, &mut out);
    out.flush();
    Ok(())
}
