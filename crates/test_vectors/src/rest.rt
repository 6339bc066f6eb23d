// What is left of the input's words.
use super::fault::Fault;

#[derive(Drop)]
pub struct Rest<'a>(pub(crate) &'a [u64]);

impl<'a> Rest<'a> {
    // The next n words.
    pub(crate) fn take(&mut self, n: usize) -> Result<&'a [u64], Fault> {
        let (taken, left) = self.0.split_at_checked(n).ok_or(Fault::Cut)?;
        self.0 = left;
        Ok(taken)
    }

    // The next N words.
    pub(crate) fn array<const N: usize>(&mut self) -> Result<[u64; N], Fault> {
        let (taken, left) = self.0.split_first_chunk::<N>().ok_or(Fault::Cut)?;
        self.0 = left;
        Ok(*taken)
    }
}
