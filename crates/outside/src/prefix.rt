//! Copying the prefix of a text.

ghost use Rattle.std.specs.Prelude.{◌≡◌, min, length, take};

// Copies as many bytes as both have from the start of `from` to the start of `to`, and says how many.
pub(crate) fn copy_prefix(from: &[u8], to: &mut [u8]) -> usize
    ensures count { result ≡ min (length from.now) (length to.old) }
    ensures copied { take result to.new ≡ take result from.now }
{
    let count = from.len().min(to.len());
    to[..count].copy_from_slice(&from[..count]);
    count
}
