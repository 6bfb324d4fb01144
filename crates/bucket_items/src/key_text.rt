//! The order of keys by their texts. It is not the order of the texts' bytes: an offer's id has a sign, and a name's
//! length comes before its bytes.

ghost use Rattle.std.specs.Prelude.{◌≡◌, true};
ghost use Rattle.ledger_types.specs.declared.key.LedgerKey.{LedgerKey as AKey};
ghost use Rattle.ledger_types.specs.KeyOrder.{key_cmp};
ghost use Rattle.bucket_items.specs.KeyText as spec;

use crate::key_ref::{KeyRef, read_key_ref};
use crate::text::{byte_at, first};
use ledger_types::LedgerKey;
use std::cmp::Ordering;
use xdr_core::Cursor;

/// The offset of the byte that holds the kind of a key; no other byte of its discriminant does.
const KIND_OFFSET: usize = 3;

/// The kind of an offer's key (OFFER of LedgerEntryType in Stellar-ledger-entries.x).
const OFFER: u8 = 2;

/// The offset in an offer's key of the first byte of its id, after the kind and the seller. That byte is below 128
/// where the id isn't negative.
const ID_OFFSET: usize = 40;

/// The kind of the key of data (DATA of LedgerEntryType in Stellar-ledger-entries.x).
const DATA: u8 = 3;

/// How two keys compare, as they are read from the prefixes of two texts. Where one text begins with no key the answer
/// is `Equal`, and says nothing.
pub fn compare(a: &[u8], b: &[u8]) -> Ordering
    ensures { spec.OrdersPrefixes a.now b.now result }
{
    let mut left = Cursor::new(a);
    let mut right = Cursor::new(b);
    match (read_key_ref(&mut left), read_key_ref(&mut right)) {
        (Ok(x), Ok(y)) => x.cmp(&y),
        _ => Ordering::Equal,
    }
}

/// How a key compares to another by the other's text. Where that is the text of no key the answer is `Equal`, and says
/// nothing.
pub fn compare_with(key: &LedgerKey, text: &[u8]) -> Ordering
    ensures { (k : AKey) → spec.IsKeyText text.now k → result ≡ key_cmp key.now k }
{
    let mut ahead = Cursor::new(text);
    match read_key_ref(&mut ahead) {
        Ok(other) => KeyRef::of(key).cmp(&other),
        Err(_) => Ordering::Equal,
    }
}

/// Whether two keys compare as the bytes of their encodings do, which are the prefixes of two texts: they aren't two
/// names, nor two offers of which one has a negative id.
fn agree_with_bytes(a: &[u8], b: &[u8]) -> bool
    ensures { (k : AKey) (m : AKey)
        → spec.BeginsWithKey a.now k → spec.BeginsWithKey b.now m → result ≡ true → spec.AreByBytes k m }
{
    let kind = byte_at(a, KIND_OFFSET);
    if kind != byte_at(b, KIND_OFFSET) {
        return true;
    }
    if kind == OFFER {
        return byte_at(a, ID_OFFSET) < 128 && byte_at(b, ID_OFFSET) < 128;
    }
    if kind == DATA {
        return false;
    }
    true
}

/// How two keys compare, by their texts. Two names are read, and two offers of which one has a negative id, and any
/// other two keys are compared by their bytes alone. It takes no memory. Where one text is of no key the answer says
/// nothing.
pub fn order(a: &[u8], b: &[u8]) -> Ordering
    ensures { spec.OrdersKeys a.now b.now result }
{
    if agree_with_bytes(a, b) {
        a.cmp(b)
    } else {
        compare(a, b)
    }
}

/// How the key whose encoding is the prefix of a text compares to another, by the other's text. It reads no more of the
/// first text than `order` does. Where one text is of no key the answer says nothing.
pub fn order_prefix(text: &[u8], key: &[u8]) -> Ordering
    ensures { (k : AKey) (m : AKey)
        → spec.BeginsWithKey text.now k → spec.IsKeyText key.now m → result ≡ key_cmp k m }
{
    if agree_with_bytes(text, key) {
        first(text, key.len()).cmp(key)
    } else {
        compare(text, key)
    }
}
