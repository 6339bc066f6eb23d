// The call itself, through the public functions of the grid, of the hour summary and of the planners' text.
use acts::Ask;
use lanes::State;
use numbers::{Cell, Process, Terms};
use refusals::Refusal;
use std::fmt;
use std::fmt::Write;
use steps::LentMut;
use test_vectors::fault::Fault;
use test_vectors::limits::{CALL, PAGE};
use test_vectors::memories::Fills;
use test_vectors::rest::Rest;
use test_vectors::show::Said;
use test_vectors::{run, show};

// The calls 0 to 4, with their arguments.
#[derive(Clone, Copy)]
pub enum Call {
    Open(Terms),
    Begin(Process, Ask),
    Step(Process),
    Hour(u32),
    // the planners' text, into a buffer of so many bytes that holds this fill
    Text(usize, u8),
}

impl TryFrom<[u64; CALL]> for Call {
    type Error = Fault;

    // That there is no such call is told before a number that does not fit.
    fn try_from(words: [u64; CALL]) -> Result<Call, Fault> {
        let [call, a, b, c, d] = words;
        let numbers = run::arguments([a, b, c, d]);
        match (call, b) {
            (0, _) => {
                let [p, m, first, step] = numbers?;
                Ok(Call::Open(Terms { p, m, first, step }))
            }
            (1, 1) => {
                let [q, _, i, _] = numbers?;
                Ok(Call::Begin(Process(q), Ask::Read(Cell(i))))
            }
            (1, 2) => {
                let [q, _, i, v] = numbers?;
                Ok(Call::Begin(Process(q), Ask::Write(Cell(i), v)))
            }
            (1, 3) => {
                let [q, _, i, _] = numbers?;
                Ok(Call::Begin(Process(q), Ask::Asked(Cell(i))))
            }
            (2, _) => Ok(Call::Step(Process(numbers?[0]))),
            (3, _) => Ok(Call::Hour(numbers?[0])),
            (4, _) if a > PAGE as u64 => Err(Fault::Length),
            (4, _) => {
                let [room, fill, _, _] = numbers?;
                Ok(Call::Text(room as usize, u8::try_from(fill)?))
            }
            _ => Err(Fault::Call),
        }
    }
}

impl Call {
    // The state after the call, and what was answered.
    fn made(
        self,
        s: State,
        lent: &mut LentMut<'_>,
        page: &mut [u8],
    ) -> (State, Result<Said, Refusal>) {
        match self {
            Call::Open(z) => {
                let o = grid::open(z, lent.as_ref());
                (o.state, o.opening.map(|()| Said::Opened))
            }
            Call::Begin(q, ask) => {
                let b = grid::begin(s, q, ask);
                (b.state, b.answer.map(Said::Told))
            }
            Call::Step(q) => {
                let b = grid::step(s, q, lent);
                (b.state, b.answer.map(Said::Told))
            }
            Call::Hour(h) => {
                let hour = summary::hour_summary(s, h, lent.as_ref());
                (s, hour.map(Said::Hour))
            }
            Call::Text(_, _) => {
                let wrote = planners_text::write_text(s, lent.as_ref(), page);
                (s, wrote.map(Said::Text))
            }
        }
    }

    fn shown<W: Write>(
        self,
        s: State,
        lent: &mut LentMut<'_>,
        fills: Fills,
        page: &mut [u8],
        fill: u8,
        out: &mut W,
    ) -> fmt::Result {
        let (state, said) = self.made(s, lent, page);
        show::answered(out, &state, said)?;
        show::memories(out, fills, lent.as_ref())?;
        show::memory(out, "buffer", page, fill)
    }
}

impl run::Call for Call {
    fn make<W: Write>(
        self,
        state: State,
        lent: &mut LentMut<'_>,
        fills: Fills,
        _rest: &mut Rest<'_>,
        out: &mut W,
    ) -> Result<(), Fault> {
        let (room, fill) = match self {
            Call::Text(room, fill) => (room, fill),
            _ => (0, 0),
        };
        let mut page = [fill; PAGE];
        let page = page.get_mut(..room).ok_or(Fault::Length)?;
        // the output keeps all that is written, so that it never fails
        let _ = self.shown(state, lent, fills, page, fill, out);
        Ok(())
    }
}
