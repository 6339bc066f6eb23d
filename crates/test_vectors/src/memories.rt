// A vector's memories: a length, a fill and exceptions, put into lent words.
use super::fault::Fault;
use super::rest::Rest;
use numbers::Mark;
use std::num::TryFromIntError;

// The next memory of a vector, put into the first of some words; and its fill.
pub fn lend<'a, T: Copy + TryFrom<u64, Error = TryFromIntError>>(
    rest: &mut Rest<'_>,
    memory: &'a mut [T],
) -> Result<(&'a mut [T], T), Fault> {
    let [len, fill, exceptions] = rest.array::<3>()?;
    let words = memory.get_mut(..len as usize).ok_or(Fault::Length)?;
    let fill = T::try_from(fill)?;
    let twice = exceptions.checked_mul(2).ok_or(Fault::Cut)?;
    let (pairs, _) = rest.take(twice as usize)?.as_chunks::<2>();
    // `fill` asks for a clone that cannot fail, which no bound of T says
    for w in words.iter_mut() {
        *w = fill;
    }
    place(words, pairs)?;
    Ok((words, fill))
}

// The exceptions, whose indices rise.
fn place<T: Copy + TryFrom<u64, Error = TryFromIntError>>(
    words: &mut [T],
    pairs: &[[u64; 2]],
) -> Result<(), Fault> {
    let mut low: u64 = 0;
    for [index, word] in pairs {
        let free = words.get_mut(*index as usize).ok_or(Fault::Index)?;
        if *index < low {
            return Err(Fault::Index);
        }
        *free = T::try_from(*word)?;
        low = *index + 1;
    }
    Ok(())
}

// What a vector fills its memories with.
#[derive(Clone, Copy)]
pub struct Fills {
    pub readings: u32,
    pub links: u64,
    pub directory: u32,
    pub pool: Mark,
}
