// The four lent memories, which every call is given together: to be read, or to be changed.
ghost use Rattle.std.specs.Prelude.{◌≡◌};
ghost use Rattle.steps.specs.Memory.{words, words_mut};

use numbers::Mark;

#[derive(Clone, Copy)]
pub struct Lent<'a> {
    pub readings: &'a [u32],
    pub links: &'a [u64],
    pub directory: &'a [u32],
    pub pool: &'a [Mark],
}

#[derive(Drop)]
pub struct LentMut<'a> {
    pub readings: &'a mut [u32],
    pub links: &'a mut [u64],
    pub directory: &'a mut [u32],
    pub pool: &'a mut [Mark],
}

impl LentMut<'_> {
    // The same memories, to be read.
    pub fn as_ref(&self) -> Lent<'_>
        ensures { words result ≡ words_mut self.now }
    {
        Lent {
            readings: self.readings,
            links: self.links,
            directory: self.directory,
            pool: self.pool,
        }
    }
}
