// Why a vector is damaged.
use std::error::Error;
use std::fmt;
use std::num::TryFromIntError;

#[derive(Clone, Copy, Debug, PartialEq, Eq)]
pub enum Fault {
    // the input ends inside it
    Cut,
    // no such call, or no such operation to begin
    Call,
    // a number is over what its word may hold
    Number,
    // no such stage
    Stage,
    // a memory is longer than a vector may lend, or a buffer than a page
    Length,
    // an index does not rise, or is past its memory's length
    Index,
}

impl fmt::Display for Fault {
    fn fmt<W: fmt::Write>(&self, f: &mut fmt::Formatter<W>) -> fmt::Result {
        f.write_str(match self {
            Fault::Cut => "the input ends inside it",
            Fault::Call => "no such call",
            Fault::Number => "a number does not fit",
            Fault::Stage => "no such stage",
            Fault::Length => "a memory is too long",
            Fault::Index => "an index is out of place",
        })
    }
}

impl Error for Fault {}

impl From<TryFromIntError> for Fault {
    fn from(_: TryFromIntError) -> Fault {
        Fault::Number
    }
}
