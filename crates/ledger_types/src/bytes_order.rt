//! The order of 32 bytes. Most of what a ledger compares is ids, so they are compared eight bytes at a time.

ghost use Rattle.std.specs.Prelude.{◌≡◌, ◌+◌, ◌≤◌};
ghost use Rattle.std.specs.Ordering.{nat_cmp};
ghost use Rattle.std.specs.Simd.Lanes.{chunk};
ghost use Rattle.std.specs.Slice.Scan.{big_endian};
ghost use Rattle.ledger_types.specs.Bytes.{bytes_cmp};

use std::cmp::Ordering;

/// How `a` and `b` compare as bytes: the first of their four words that differs decides.
pub(crate) fn bytes_order(a: &[u8; 32], b: &[u8; 32]) -> Ordering
    ensures { result ≡ bytes_cmp a.now b.now }
{
    let (word, other) = words_at(a, b, 0);
    if word != other {
        return word.cmp(&other);
    }
    let (word, other) = words_at(a, b, 8);
    if word != other {
        return word.cmp(&other);
    }
    let (word, other) = words_at(a, b, 16);
    if word != other {
        return word.cmp(&other);
    }
    let (word, other) = words_at(a, b, 24);
    word.cmp(&other)
}

// The eight bytes from `at` on of each, as the numbers that they encode, the first byte being the highest.
fn words_at(a: &[u8; 32], b: &[u8; 32], at: usize) -> (u64, u64)
    requires { at + 8 ≤ 32 }
    ensures { nat_cmp result.0 result.1 ≡ bytes_cmp (chunk at 8 a.now) (chunk at 8 b.now) }
{
    (word_at(a, at), word_at(b, at))
}

fn word_at(bytes: &[u8; 32], at: usize) -> u64
    requires { at + 8 ≤ 32 }
    ensures { result ≡ big_endian 0 (chunk at 8 bytes.now) }
{
    u64::from_be_bytes([
        bytes[at],
        bytes[at + 1],
        bytes[at + 2],
        bytes[at + 3],
        bytes[at + 4],
        bytes[at + 5],
        bytes[at + 6],
        bytes[at + 7],
    ])
}
