//! Which keys a file may have: a Bloom filter of one word a key (Putze, Sanders, Singler: Cache-, Hash- and
//! Space-Efficient Bloom Filters). A key that isn't in it is in no item; what is in it without an item costs time
//! alone.

ghost use Rattle.std.specs.Prelude.{◌≡◌, ◌<◌, true, ℕ, length, IfOk};
ghost use Rattle.bucket_core.specs.Filter as spec;

use byteorder::{BigEndian, ByteOrder};
use std::alloc::{AllocError, Global};

/// The word at a position of a text, or 0 where the text ends before its end.
fn word_at(text: &[u8], position: usize) -> u64
    ensures { result ≡ spec.word_at text.now position }
{
    if text.len() < position {
        return 0;
    }
    let rest = text.split_at(position).1;
    if rest.len() < 8 {
        return 0;
    }
    BigEndian::read_u64(rest)
}

/// A number of 64 bits for the text of a key. Most keys that differ have different ones.
pub fn fingerprint(text: &[u8]) -> u64
    ensures { result ≡ spec.fingerprint text.now }
{
    let words = word_at(text, 8)
        .wrapping_add(word_at(text, 32).wrapping_mul(0xBF58_476D_1CE4_E5B9))
        .wrapping_add(word_at(text, 40).wrapping_mul(0x94D0_49BB_1331_11EB))
        .wrapping_add(word_at(text, 48).wrapping_mul(0xD6E8_FEB8_6659_FD93))
        .wrapping_add(word_at(text, 56).wrapping_mul(0xC2B2_AE3D_27D4_EB4F));
    words.wrapping_mul(0x9E37_79B9_7F4A_7C15)
}

/// The three bits of its word that a key with this fingerprint sets.
fn mask_of(fingerprint: u64) -> u64
    ensures { result ≡ spec.mask fingerprint }
{
    (1 << (fingerprint >> 14) % 64)
        | (1 << (fingerprint >> 20) % 64)
        | (1 << (fingerprint >> 26) % 64)
}

/// Whether a key with this fingerprint may be in the file.
pub(crate) fn may_contain(words: &[u64], fingerprint: u64) -> bool
    requires { 0 < length words.now }
    ensures { result ≡ spec.may_contain words.now fingerprint }
{
    let mask = mask_of(fingerprint);
    words[((fingerprint >> 32) % words.len() as u64) as usize] & mask == mask
}

/// Puts the fingerprint of a key into a filter.
pub(crate) fn insert(words: &mut [u64], fingerprint: u64)
    requires { 0 < length words.old }
    ensures noted { spec.may_contain words.new fingerprint ≡ true }
    ensures kept { (other : ℕ) → spec.may_contain words.old other ≡ true → spec.may_contain words.new other ≡ true }
    ensures len { length words.new ≡ length words.old }
{
    let slot = ((fingerprint >> 32) % words.len() as u64) as usize;
    words[slot] |= mask_of(fingerprint);
}
