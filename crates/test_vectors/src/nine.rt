// A lane as a vector has it: nine words, and the lane that they stand for.
ghost use Rattle.std.specs.Prelude.{◌≤◌};

use super::fault::Fault;
use super::limits::{LANE_WORDS, LAST_STAGE};
use lanes::{Check, Lane, Marking, Op};
use numbers::{Cell, Place};
use std::fmt;

#[derive(Clone, Copy)]
pub struct Nine {
    marks: u64,
    drawn: u64,
    steps: u64,
    stage: u64,
    cell: u64,
    value: u64,
    link: u64,
    place: u64,
    // plus 2^32 where the tombstone is stored already
    start: u64,
}

const STORED: u64 = 4294967296;

impl fmt::Display for Nine {
    fn fmt<W: fmt::Write>(&self, f: &mut fmt::Formatter<W>) -> fmt::Result {
        write!(
            f,
            "{} {} {} {} ",
            self.marks, self.drawn, self.steps, self.stage
        )?;
        write!(
            f,
            "{} {} {} {} {}",
            self.cell, self.value, self.link, self.place, self.start
        )
    }
}

// ---- from words to a lane

impl From<[u64; LANE_WORDS]> for Nine {
    fn from(words: [u64; LANE_WORDS]) -> Nine {
        let [marks, drawn, steps, stage, cell, value, link, place, start] = words;
        Nine {
            marks,
            drawn,
            steps,
            stage,
            cell,
            value,
            link,
            place,
            start,
        }
    }
}

impl Nine {
    // k, as the stages of a vector count them: 0 (a) link, 1 (b) marks, 2 (c) directory, 3 (d) mark.
    fn check(self, k: u64, start: u32) -> Check {
        match k {
            0 => Check::Link,
            1 => Check::Marks(self.link),
            2 => Check::Directory(self.link),
            _ => Check::Mark(start, self.link),
        }
    }

    fn marking(self, stored: bool, start: u32) -> Marking {
        let place = Place(self.place);
        match self.stage {
            15 => Marking::Draw(stored, self.link, place),
            16 => Marking::Enter(stored, start, self.link, place),
            17 => Marking::Tombstone(self.link, place),
            18 => Marking::Mark(self.link, place),
            19 => Marking::Force(self.link, place),
            20 => Marking::Swap(self.link, place),
            _ => Marking::TakeBack(place),
        }
    }
}

impl TryFrom<Nine> for Lane {
    type Error = Fault;

    fn try_from(n: Nine) -> Result<Lane, Fault> {
        if LAST_STAGE < n.stage {
            return Err(Fault::Stage);
        }
        let cell = Cell(u32::try_from(n.cell)?);
        let value = u32::try_from(n.value)?;
        let stored = STORED <= n.start;
        let start = u32::try_from(if stored { n.start - STORED } else { n.start })?;
        let op = match n.stage {
            0 => Op::Idle,
            1..=4 => Op::Read(cell, n.check(n.stage - 1, start)),
            5 => Op::Reading(cell),
            6..=9 => Op::Asked(cell, n.check(n.stage - 6, start)),
            10 => Op::Store(cell, value),
            11..=14 => Op::Write(cell, n.check(n.stage - 11, start)),
            _ => Op::Marking(cell, n.marking(stored, start)),
        };
        Ok(Lane {
            marks: u32::try_from(n.marks)?,
            drawn: u8::try_from(n.drawn)?,
            steps: u8::try_from(n.steps)?,
            op,
        })
    }
}

// ---- from a lane to words

fn noted(stored: bool, start: u32) -> u64 {
    if stored {
        STORED + u64::from(start)
    } else {
        u64::from(start)
    }
}

impl Nine {
    // The same lane, at a stage of an operation on cell i.
    fn at(self, stage: u64, i: Cell) -> Nine {
        Nine {
            stage,
            cell: u64::from(i.0),
            ..self
        }
    }

    // `stage` is the number of the operation's (a).
    fn checking(self, stage: u64, i: Cell, c: Check) -> Nine
        requires { stage ≤ 11 }
    {
        match c {
            Check::Link => self.at(stage, i),
            Check::Marks(link) => Nine {
                link,
                ..self.at(stage + 1, i)
            },
            Check::Directory(link) => Nine {
                link,
                ..self.at(stage + 2, i)
            },
            Check::Mark(start, link) => Nine {
                link,
                start: u64::from(start),
                ..self.at(stage + 3, i)
            },
        }
    }

    fn marked(self, stage: u64, i: Cell, link: u64, n: Place, start: u64) -> Nine {
        Nine {
            link,
            place: n.0,
            start,
            ..self.at(stage, i)
        }
    }
}

impl From<Lane> for Nine {
    fn from(l: Lane) -> Nine {
        let idle = Nine {
            marks: u64::from(l.marks),
            drawn: u64::from(l.drawn),
            steps: u64::from(l.steps),
            stage: 0,
            cell: 0,
            value: 0,
            link: 0,
            place: 0,
            start: 0,
        };
        match l.op {
            Op::Idle => idle,
            Op::Read(i, c) => idle.checking(1, i, c),
            Op::Reading(i) => idle.at(5, i),
            Op::Asked(i, c) => idle.checking(6, i, c),
            Op::Store(i, v) => Nine {
                value: u64::from(v),
                ..idle.at(10, i)
            },
            Op::Write(i, c) => idle.checking(11, i, c),
            Op::Marking(i, k) => match k {
                Marking::Draw(stored, link, n) => idle.marked(15, i, link, n, noted(stored, 0)),
                Marking::Enter(stored, start, link, n) => {
                    idle.marked(16, i, link, n, noted(stored, start))
                }
                Marking::Tombstone(link, n) => idle.marked(17, i, link, n, 0),
                Marking::Mark(link, n) => idle.marked(18, i, link, n, 0),
                Marking::Force(link, n) => idle.marked(19, i, link, n, 0),
                Marking::Swap(link, n) => idle.marked(20, i, link, n, 0),
                Marking::TakeBack(n) => idle.marked(21, i, 0, n, 0),
            },
        }
    }
}
