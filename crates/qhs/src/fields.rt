// The fields of a file's bytes: little-endian numbers over their width, and where a record starts.
ghost use Rattle.std.specs.Prelude.{◌≡◌, ◌^◌, ◌≤◌, ◌<◌};
ghost use Rattle.byte_lists.specs.Bytes.{byte_at, number_at};
ghost use Rattle.qhs.specs.Inner.{Sound, Near, start_in};

use super::Layout;

// Byte i; one past the end counts as 0.
pub fn byte_at(bytes: &[u8], i: usize) -> u8
    ensures { result ≡ byte_at bytes.now i }
{
    bytes.get(i).copied().unwrap_or(0)
}

// The little-endian number that `width` bytes hold from byte `at` on.
pub fn number_at(bytes: &[u8], at: usize, width: usize) -> u64
    requires { (width ≤ 8) × Near bytes.now at width }
    ensures { (result ≡ number_at bytes.now at width) × (result < 256 ^ width) }
{
    let mut n: u64 = 0;
    for i in (0..width).rev() {
        n = 256 * n + u64::from(byte_at(bytes, at + i));
    }
    n
}

// Such a number of 32 bits at the most.
pub fn word_at(bytes: &[u8], at: usize, width: usize) -> u32
    requires { (width ≤ 4) × Near bytes.now at width }
    ensures { result ≡ number_at bytes.now at width }
{
    number_at(bytes, at, width) as u32
}

// Where record k starts in a file of `len` bytes; the file's end where it would start past it.
pub fn start_of(l: Layout, len: usize, k: usize) -> usize
    requires { Sound l }
    ensures { (result ≤ len) × (result ≡ start_in l len k) }
{
    if len < l.header {
        return len;
    }
    if (len - l.header) / l.stride < k {
        return len;
    }
    l.header + l.stride * k
}
