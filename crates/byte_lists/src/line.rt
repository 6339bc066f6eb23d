// A line that is being made: words and decimal numbers, one after the other.
ghost use Rattle.std.specs.Prelude.{◌≡◌, length};
ghost use Rattle.byte_lists.specs.declared.line.TheConstants.{ROOM};

pub const ROOM: usize = 64;

// No number of 64 bits has more.
const DIGITS: usize = 20;

// The first `len` bytes are the line; what goes past its room is cut off. Its room is fixed: no heap is lent to a grid.
#[derive(Clone, Copy)]
pub struct Line {
    pub bytes: [u8; ROOM],
    pub len: usize,
    pub ghost sized: { length bytes ≡ ROOM },
}

impl Line {
    ghost use Rattle.std.specs.Prelude.{[], ◌∷◌};
    ghost use Rattle.byte_lists.specs.Bytes.{decimal};
    ghost use Rattle.byte_lists.specs.Lines.{Grown, Made};

    pub fn new() -> Line
        ensures { Made result [] }
    {
        Line {
            bytes: [0; ROOM],
            len: 0,
        }
    }

    // In place: a line handed on for each byte would be copied for each.
    fn push(&mut self, b: u8)
        ensures { Grown self.old self.new (b ∷ []) }
    {
        if self.len < ROOM {
            self.bytes[self.len] = b;
            self.len += 1;
        }
    }

    pub fn byte(mut self, b: u8) -> Line
        ensures { Grown self result (b ∷ []) }
    {
        self.push(b);
        self
    }

    pub fn word(mut self, w: &[u8]) -> Line
        ensures { Grown self result w.now }
    {
        for &b in w {
            self.push(b);
        }
        self
    }

    // The digits are found from the last one on: by recursion each would copy the line.
    pub fn number(self, n: u64) -> Line
        ensures { Grown self result (decimal n) }
    {
        let mut digits = [0; DIGITS];
        let mut rest = n;
        for i in (0..DIGITS).rev() {
            digits[i] = b'0' + (rest % 10) as u8;
            if rest < 10 {
                return self.word(&digits[i..]);
            }
            rest /= 10;
        }
        // There are no more digits.
        self
    }
}
