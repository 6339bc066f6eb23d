// The output, kept in a buffer and written when it is full.
use std::fmt;

// Bytes that are kept at the most. The buffer is fixed, since a project rule allows no heap.
const ROOM: usize = 65536;

#[derive(Drop)]
pub(crate) struct Out<'a, P> {
    rt: &'a P,
    kept: [u8; ROOM],
    len: usize,
}

impl<'a, P: Print> Out<'a, P> {
    pub(crate) fn new(rt: &'a P) -> Self {
        Out {
            rt,
            kept: [0; ROOM],
            len: 0,
        }
    }

    // Writes what is kept. A write that fails is not told.
    pub(crate) fn flush(&mut self) {
        if let Some(kept) = self.kept.get(..self.len) {
            let _ = self.rt.write_all(kept);
        }
        self.len = 0;
    }

    fn keep(&mut self, bytes: &[u8]) -> Option<()> {
        let (to, _) = self
            .kept
            .get_mut(self.len..)?
            .split_at_mut_checked(bytes.len())?;
        to.copy_from_slice(bytes);
        self.len += bytes.len();
        Some(())
    }
}

impl<P: Print> fmt::Write for Out<'_, P> {
    fn write_str(&mut self, s: &str) -> fmt::Result {
        let bytes = s.as_bytes();
        if self.keep(bytes).is_none() {
            self.flush();
            // no text is longer than the room
            let _ = self.keep(bytes);
        }
        Ok(())
    }
}
