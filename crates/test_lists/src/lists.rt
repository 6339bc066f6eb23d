// The five lists that come after a vector's memories, each in the form of a memory; and a list in words of another type.

// The words of a list at the most, and of the last one, which is written to.
pub const LIST: usize = 8192;

pub const LAST: usize = 65544;

// The lists that are only read, as the vector has them.
#[derive(Clone, Copy)]
pub struct Lists<'a> {
    pub kinds: &'a [u32],
    pub processes: &'a [u32],
    pub cells: &'a [u32],
    pub values: &'a [u32],
}

// Each word of a list in another type, as far as there is room; what was written.
pub fn turned<'a, A: Copy, B: Copy, F: Fn(A) -> B>(
    from: &[A],
    to: &'a mut [B],
    turn: F,
) -> &'a mut [B]
    requires { F.IsAlwaysCallable turn }
{
    let n = from.len().min(to.len());
    let to = &mut to[..n];
    for (new, old) in to.iter_mut().zip(from) {
        *new = turn(*old);
    }
    to
}
