//! Parts of a text.

ghost use Rattle.std.specs.Prelude.{◌≡◌, ◌≤◌, length, drop, take, slice_index};

/// What comes after the first `n` bytes of a text, or the text where it has fewer.
pub(crate) fn after(text: &[u8], n: usize) -> &[u8]
    ensures { n ≤ length text.now → result.now ≡ drop n text.now }
{
    if text.len() < n {
        return text;
    }
    text.split_at(n).1
}

/// The first `n` bytes of a text, or the text where it has fewer.
pub(crate) fn first(text: &[u8], n: usize) -> &[u8]
    ensures { result.now ≡ take n text.now }
{
    if text.len() < n {
        return text;
    }
    text.split_at(n).0
}

/// The byte at an offset of a text, or 0 where the text ends before it.
pub(crate) fn byte_at(text: &[u8], offset: usize) -> u8
    ensures { result ≡ slice_index text.now offset }
{
    if offset < text.len() { text[offset] } else { 0 }
}
