// The call itself, through the public functions of the batch and of the schedule file's writer.
use super::lists;
use super::lists::{LAST, LIST, Lists};
use lanes::State;
use qhs::Header;
use refusals::Refusal;
use std::fmt;
use std::fmt::Write;
use steps::LentMut;
use test_vectors::fault::Fault;
use test_vectors::limits::CALL;
use test_vectors::memories::Fills;
use test_vectors::rest::Rest;
use test_vectors::show::Said;
use test_vectors::{memories, run, show};

// The calls 5 and 6, the latter with the header's p, m, first and step.
#[derive(Clone, Copy)]
pub enum Call {
    Batch,
    File(u32, u32, u32, u32),
}

impl TryFrom<[u64; CALL]> for Call {
    type Error = Fault;

    // That there is no such call is told before a number that does not fit.
    fn try_from(words: [u64; CALL]) -> Result<Call, Fault> {
        let [call, a, b, c, d] = words;
        let numbers = run::arguments([a, b, c, d]);
        match call {
            5 => numbers.map(|_| Call::Batch),
            6 => {
                let [p, m, first, step] = numbers?;
                Ok(Call::File(p, m, first, step))
            }
            _ => Err(Fault::Call),
        }
    }
}

fn low8(w: u32) -> u8 {
    (w & 0xff) as u8
}

fn low16(w: u32) -> u16 {
    (w & 0xffff) as u16
}

fn batch(s: State, lent: &mut LentMut<'_>, lists: Lists<'_>, answers: &mut [u64]) -> State {
    let mut kinds = [0u8; LIST];
    batch::run(
        s,
        lists::turned(lists.kinds, &mut kinds, low8),
        lists.processes,
        lists.cells,
        lists.values,
        answers,
        lent,
    )
}

// The file, written from narrow lists into a buffer of bytes, which are handed in as words.
fn file(h: Header, lists: Lists<'_>, words: &mut [u64]) -> Result<Said, Refusal> {
    let mut kinds = [0u8; LIST];
    let mut processes = [0u8; LIST];
    let mut cells = [0u16; LIST];
    let mut out = [0u8; LAST];
    let buffer = lists::turned(words, &mut out, |w: u64| (w & 0xff) as u8);
    let wrote = qhs_writer::write(
        h,
        lists::turned(lists.kinds, &mut kinds, low8),
        lists::turned(lists.processes, &mut processes, low8),
        lists::turned(lists.cells, &mut cells, low16),
        lists.values,
        buffer,
    );
    lists::turned(buffer, words, u64::from);
    wrote.map(Said::File)
}

impl Call {
    fn shown<W: Write>(
        self,
        s: State,
        lent: &mut LentMut<'_>,
        fills: Fills,
        lists: Lists<'_>,
        last: &mut [u64],
        fill: u64,
        out: &mut W,
    ) -> fmt::Result {
        let (state, said, name) = match self {
            Call::Batch => {
                let t = batch(s, lent, lists, last);
                (t, Ok(Said::Batch), "answers")
            }
            Call::File(p, m, first, step) => {
                // the header's fill is that of the links
                let h = Header {
                    p,
                    m,
                    first,
                    step,
                    fill: fills.links,
                };
                (s, file(h, lists, last), "buffer")
            }
        };
        show::answered(out, &state, said)?;
        show::memories(out, fills, lent.as_ref())?;
        show::memory(out, name, last, fill)
    }
}

impl run::Call for Call {
    fn make<W: Write>(
        self,
        state: State,
        lent: &mut LentMut<'_>,
        fills: Fills,
        rest: &mut Rest<'_>,
        out: &mut W,
    ) -> Result<(), Fault> {
        let mut kinds = [0u32; LIST];
        let mut processes = [0u32; LIST];
        let mut cells = [0u32; LIST];
        let mut values = [0u32; LIST];
        let mut last = [0u64; LAST];
        let lists = Lists {
            kinds: memories::lend(rest, &mut kinds)?.0,
            processes: memories::lend(rest, &mut processes)?.0,
            cells: memories::lend(rest, &mut cells)?.0,
            values: memories::lend(rest, &mut values)?.0,
        };
        let (last, fill) = memories::lend(rest, &mut last)?;
        // the output keeps all that is written, so that it never fails
        let _ = self.shown(state, lent, fills, lists, last, fill, out);
        Ok(())
    }
}
