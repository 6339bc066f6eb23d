// What a step of a process is judged by, looked up in the state before it.
ghost use Rattle.acts.specs.Inner.{Judged};

use lanes::Lane;
use numbers::{Process, Terms};

#[derive(Clone, Copy)]
pub struct Seat {
    // Whether the state's numbers are in their ranges.
    pub fits: bool,
    pub terms: Terms,
    pub top: u32,
    pub process: Process,
    // The process's lane, and the marks in force that its next step reads.
    pub lane: Lane,
    pub seen: u32,
    pub ghost judged: { Judged fits terms top process.0 lane seen },
}
