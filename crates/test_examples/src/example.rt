// An example's grid and its four memories, and the steps that are shown.
use super::{say, touch};
use acts::{Answer, Ask};
use lanes::State;
use numbers::{Cell, Mark, Process, Terms};
use refusals::Refusal;
use std::fmt;
use steps::{Lent, LentMut, Word};

// A grid of M cells, whose directory and pool have D and P words.
#[derive(Clone, Copy)]
pub struct Example<const M: usize, const D: usize, const P: usize> {
    pub state: State,
    pub readings: [u32; M],
    pub links: [u64; M],
    pub directory: [u32; D],
    pub pool: [Mark; P],
}

// The word that a step touches, as it is shown.
#[derive(Clone, Copy)]
struct Touched(Word);

impl fmt::Display for Touched {
    fn fmt<W: fmt::Write>(&self, f: &mut fmt::Formatter<W>) -> fmt::Result {
        match self.0 {
            Word::Reading(i) => write!(f, "reading {i}"),
            Word::Link(i) => write!(f, "link {i}"),
            Word::Directory(k) => write!(f, "directory {k}"),
            Word::Pool(k) => write!(f, "pool {k}"),
            Word::Marks(q) => write!(f, "marks {q}"),
            Word::Top => write!(f, "top"),
        }
    }
}

pub fn answered(rt: &impl Print, a: Result<Answer, Refusal>) {
    match a {
        Ok(Answer::Begun) => say(rt, "begun\n"),
        Ok(Answer::Going) => say(rt, "going\n"),
        Ok(Answer::Read(v, _, _)) => say(rt, format_args!("read {v}\n")),
        Ok(Answer::Written(n)) => say(rt, format_args!("written {n}\n")),
        Ok(Answer::Asked(_, n)) => say(rt, format_args!("asked {n}\n")),
        Err(r) => {
            let n = refusals::number(r);
            say(rt, format_args!("refused {n}\n"))
        }
    }
}

impl<const M: usize, const D: usize, const P: usize> Example<M, D, P> {
    // A grid of these terms, opened in memories of zeros.
    pub fn opened(z: Terms) -> Self {
        let readings = [0; M];
        let links = [0; M];
        let directory = [0; D];
        let pool = [0; P];
        let lent = Lent {
            readings: &readings,
            links: &links,
            directory: &directory,
            pool: &pool,
        };
        Example {
            state: grid::open(z, lent).state,
            readings,
            links,
            directory,
            pool,
        }
    }

    // Process q begins to write v to cell i.
    pub fn write(&mut self, rt: &impl Print, q: u32, i: u32, v: u32) {
        say(rt, format_args!("process {q} writes cell {i}\n"));
        self.state = grid::begin(self.state, Process(q), Ask::Write(Cell(i), v)).state;
    }

    // One step of process q, its k-th, with the word that it touches.
    fn traced(&mut self, rt: &impl Print, q: u32, k: u32) -> Result<Answer, Refusal> {
        let op = self.state.lanes[acts::begins::lane_of(Process(q))].op;
        let word = Touched(touch::touched(self.state.terms, Process(q), &self.directory, op));
        say(rt, format_args!("  {k} {word}\n"));
        let mut lent = LentMut {
            readings: &mut self.readings,
            links: &mut self.links,
            directory: &mut self.directory,
            pool: &mut self.pool,
        };
        let r = grid::step(self.state, Process(q), &mut lent);
        self.state = r.state;
        r.answer
    }

    // n steps of process q, and the last one's answer.
    pub fn walk(&mut self, rt: &impl Print, q: u32, n: u32) {
        let mut last = Ok(Answer::Begun);
        for k in 1..=n {
            last = self.traced(rt, q, k);
        }
        answered(rt, last);
    }
}
