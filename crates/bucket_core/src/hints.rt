//! Where an item may be among those of its file. A hint may be wrong: it costs time then, and nothing else.

ghost use Rattle.std.specs.Prelude.{◌≡◌, ◌≤◌, ◌<◌, length};

/// The hint that there is none.
pub(crate) const NO_HINT: usize = usize::MAX;

/// Where a search among so many items begins: where a hint says, and else in the middle.
pub(crate) fn first_probe(len: usize, hint: usize) -> usize
    ensures within { result ≤ len }
    ensures before { 0 < len → result < len }
{
    if hint < len { hint } else { len / 2 }
}

/// The index of an item whose key may have this fingerprint.
pub(crate) fn hinted(hints: &[u32], fingerprint: u64) -> usize {
    if hints.is_empty() {
        return NO_HINT;
    }
    hints[((fingerprint >> 32) % hints.len() as u64) as usize] as usize
}

/// Notes the index of an item whose key has this fingerprint.
pub(crate) fn note(hints: &mut [u32], fingerprint: u64, index: u32) {
    if hints.is_empty() {
        return;
    }
    let slot = ((fingerprint >> 32) % hints.len() as u64) as usize;
    hints[slot] = index;
}
