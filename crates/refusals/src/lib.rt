// The refusals of the table, each by its name.
#![tactic(auto)]

ghost use Rattle.std.specs.Prelude.{◌≡◌};
ghost use Rattle.refusals.specs.Numbers.{number_of, refusal_of};

#[derive(Clone, Copy, PartialEq, Eq)]
pub enum Refusal {
    // Open: p is 0 or over the most.
    ProcessCount = 1,
    // Open: m is 0 or over the most.
    CellCount = 2,
    // Open: a lent length is wrong.
    LentLength = 3,
    // The process is not below p.
    NoSuchProcess = 4,
    // The cell is not below m, or the hour is not one of the grid's.
    NoSuchCell = 5,
    // Begin: this process has an operation under way.
    UnderWay = 6,
    // Step: this process has none.
    NothingUnderWay = 7,
    // The lent lengths are not those of the state's p and m.
    OtherLengths = 8,
    // A number of the state, a word to be touched, a draw or a new number is out of range.
    OutOfRange = 9,
    // Hour summary: some operation is under way.
    AtWork = 10,
    // File: too short for a header, or the mark is wrong.
    NotASchedule = 11,
    // File: another version.
    Version = 12,
    // File: more cells than a schedule may have.
    TooManyCells = 13,
    // File: the bytes after the header make no whole records.
    RaggedRecords = 14,
    // File: a record of no known kind.
    RecordKind = 15,
    // File: too long.
    FileTooLong = 16,
    // The text does not fit the lent buffer.
    NoRoom = 17,
    // Hour summary: none of the four quarters is written.
    NothingWritten = 18,
}

impl From<Refusal> for u32 {
    ghost from_gives = { λ r n. n ≡ number_of r };

    fn from(r: Refusal) -> u32 {
        r as u32
    }
}

// The table's number: what the statements call `number_of`.
pub fn number(r: Refusal) -> u32
    ensures { result ≡ number_of r }
{
    u32::from(r)
}

// The refusal of a number of the table; of any other number, NothingWritten.
pub fn of_number(n: u32) -> Refusal
    ensures { result ≡ refusal_of n }
{
    match n {
        1 => Refusal::ProcessCount,
        2 => Refusal::CellCount,
        3 => Refusal::LentLength,
        4 => Refusal::NoSuchProcess,
        5 => Refusal::NoSuchCell,
        6 => Refusal::UnderWay,
        7 => Refusal::NothingUnderWay,
        8 => Refusal::OtherLengths,
        9 => Refusal::OutOfRange,
        10 => Refusal::AtWork,
        11 => Refusal::NotASchedule,
        12 => Refusal::Version,
        13 => Refusal::TooManyCells,
        14 => Refusal::RaggedRecords,
        15 => Refusal::RecordKind,
        16 => Refusal::FileTooLong,
        17 => Refusal::NoRoom,
        _ => Refusal::NothingWritten,
    }
}
