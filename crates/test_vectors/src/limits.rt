// What a vector may hold, and how much input is taken. The memories are those of a grid of 65,536 cells, whatever the largest grid is.
use numbers::{CELL_MARKS, LANES, PROCESS_MARKS, SEGMENTS};

// The words of a vector's call with its arguments, of a lane, and of the call and the state: the terms, the top and the lanes.
pub const CALL: usize = 5;

pub const LANE_WORDS: usize = 9;

pub const HEAD: usize = CALL + 5 + LANE_WORDS * LANES;

// The last stage of a lane.
pub const LAST_STAGE: u64 = 21;

// The memories, at the most: readings and links, directory, pool.
pub const CELL_WORDS: usize = 65536;

pub const DIRECTORY_WORDS: usize = (SEGMENTS as usize) * LANES;

pub const POOL_WORDS: usize = CELL_MARKS * CELL_WORDS + PROCESS_MARKS * LANES;

// The buffer that the planners' text is lent, at the most.
pub const PAGE: usize = 4096;

// The input's words.
pub const INPUT: usize = 131072;

// It is read in pieces of so many words. A piece past its words shows that it is too long.
pub const PIECE: usize = 8192;
