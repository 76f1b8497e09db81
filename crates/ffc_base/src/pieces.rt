//! Copying what is left into a buffer.
ghost use Rattle.std.specs.Prelude.{◌≡◌, ◌-◌, ◌≤◌, ◌++◌, length, take, drop, min};

/// Copies the bytes from `position` on into the front of `buf`, at most `most` of them, and says how many.
pub(crate) fn move_front(bytes: &[u8], position: usize, most: usize, buf: &mut [u8]) -> usize
    requires { position ≤ length bytes.now }
    ensures count { result ≡ min most (min (length buf.old) (length bytes.now - position)) }
    ensures copied { buf.new ≡ take result (drop position bytes.now) ++ drop result buf.old }
{
    let left = &bytes[position..];
    let count = most.min(buf.len()).min(left.len());
    buf[..count].copy_from_slice(&left[..count]);
    count
}
