// The memories of the largest grid that a file asks for, filled as its header says.
ghost use Rattle.std.specs.Prelude.{◌≡◌};
ghost use Rattle.steps.specs.Memory.{words_mut};
ghost use Rattle.play.specs.Play.{filled};
ghost use Rattle.play.specs.Inner.{Small};

use numbers::{CELL_MARKS, LANES, PROCESS_MARKS, SEGMENTS};
use qhs::{FILE_CELLS, Header};
use steps::LentMut;

pub const CELL_WORDS: usize = FILE_CELLS as usize;

pub const DIRECTORY_WORDS: usize = (SEGMENTS as usize) * LANES;

pub const POOL_WORDS: usize = CELL_MARKS * CELL_WORDS + PROCESS_MARKS * LANES;

// Lends memories that hold the fill, and the buffer, to `run`.
pub fn with_filled<R, F: FnOnce(&mut LentMut<'_>, &mut [u8]) -> R>(
    h: Header,
    out: &mut [u8],
    run: F,
) -> R
    requires fits { Small h }
    requires takes { (lent : _) (text : _) → words_mut lent.now ≡ filled h → text.now ≡ out.old → F.pre run lent text }
    ensures { (lent : _) × (text : _) × (lent' : _) × (text' : _) × (words_mut lent.now ≡ filled h) × (text.now ≡ out.old)
        × F.post run lent text result lent' text' × (text'.now ≡ out.new) }
{
    let fill = h.fill;
    let low = (fill % 4294967296) as u32;
    let mut readings = [low; CELL_WORDS];
    let mut links = [fill; CELL_WORDS];
    let mut directory = [low; DIRECTORY_WORDS];
    let mut pool = [low; POOL_WORDS];
    let mut lent = LentMut {
        readings: &mut readings[..h.m as usize],
        links: &mut links[..h.m as usize],
        directory: &mut directory[..numbers::directory_words(h.p)],
        pool: &mut pool[..numbers::pool_words(h.p, h.m)],
    };
    run(&mut lent, out)
}
