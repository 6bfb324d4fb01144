//! An item of a bucket's file, and its key, where they lie there.

ghost use Rattle.std.specs.Prelude.{◌≡◌, ◌++◌, ℕ, List, Ok};
ghost use Rattle.ledger_types.specs.declared.bucket.BucketEntry.{BucketEntry as AnItem};
ghost use Rattle.ledger_types.specs.declared.key.LedgerKey.{LedgerKey};
ghost use Rattle.xdr_core.specs.Position.{Position, start_of};
ghost use Rattle.xdr_entries.specs.Keys.{ledger_key};
ghost use Rattle.bucket_items.specs.Item as spec;
ghost use Rattle.bucket_items.specs.MarkedItem.{item_at};

use crate::key_ref::read_key_ref;
use crate::text::{after, byte_at};
use ledger_types::BucketEntry;
use xdr_core::Cursor;

/// The offset in a record of the byte that holds its item's type: after the record mark (RFC 5531, 11), the last byte
/// of the discriminant.
const TYPE_OFFSET: usize = 7;

/// DEADENTRY of BucketEntryType.
const DEAD: u8 = 1;

/// What an item says of its key (BucketEntryType in Stellar-ledger.x; CAP-0020).
#[derive(Clone, Copy, PartialEq, Eq)]
pub enum BucketEntryType {
    /// METAENTRY, -1: the bucket's own item, which has no key.
    Meta,
    /// LIVEENTRY, 0: an entry that was made or changed.
    Live,
    /// DEADENTRY, 1: an entry that is gone.
    Dead,
    /// INITENTRY, 2: an entry that was made.
    Init,
}

/// An item of a bucket's file where it lies.
#[derive(Clone, Copy)]
pub struct BucketItem<'a> {
    /// What the item says of its key.
    pub mark: BucketEntryType,
    /// The encoding of the key (LedgerKey), one piece of `bytes`. It is empty for META.
    pub key: &'a [u8],
    /// The encoding of the item (BucketEntry), without its record mark.
    pub bytes: &'a [u8],
}

/// What an item says of its key.
pub(crate) fn type_of(entry: &BucketEntry) -> BucketEntryType
    ensures { result ≡ spec.item_type entry.now }
{
    match entry {
        BucketEntry::Meta { .. } => BucketEntryType::Meta,
        BucketEntry::Live(_) => BucketEntryType::Live,
        BucketEntry::Dead(_) => BucketEntryType::Dead,
        BucketEntry::Init(_) => BucketEntryType::Init,
    }
}

/// The key with whose encoding a text begins, or the text where it begins with none.
fn prefix_key(text: &[u8]) -> &[u8]
    ensures { (k : LedgerKey) (tail : List ℕ)
        → text.now ≡ ledger_key.encoding k ++ tail → ledger_key.within k → ledger_key.sized k
        → result.now ≡ ledger_key.encoding k }
{
    let mut ahead = Cursor::new(text);
    match read_key_ref(&mut ahead) {
        Ok(_) => text.split_at(ahead.at()).0,
        Err(_) => text,
    }
}

/// Where the key of an item of this type lies in the item's text: after the discriminant, and in an entry after the
/// number of its last change too.
fn key_in(text: &[u8], mark: BucketEntryType) -> &[u8]
    ensures { (e : AnItem) → spec.IsItemText text.now e → spec.item_type e ≡ mark → result.now ≡ spec.item_key_text e }
{
    match mark {
        BucketEntryType::Meta => text.split_at(0).0,
        BucketEntryType::Live => prefix_key(after(text, 8)),
        BucketEntryType::Dead => after(text, 4),
        BucketEntryType::Init => prefix_key(after(text, 8)),
    }
}

/// The item of this type that is all of a text.
pub(crate) fn item_of(text: &[u8], mark: BucketEntryType) -> BucketItem<'_>
    ensures { (p : Position) (e : AnItem)
        → p.rest ≡ text.now → spec.entire_at p ≡ Ok e → spec.item_type e ≡ mark → spec.Shows result text.now e }
{
    BucketItem {
        mark,
        key: key_in(text, mark),
        bytes: text,
    }
}

/// The text from the key of an item on, where the item's record is the prefix of a text: after the record mark and the
/// discriminant, and in an entry after the number of its last change too. It says nothing of META, which has no key.
pub fn from_key(text: &[u8]) -> &[u8]
    ensures { (e : AnItem) (q : Position) → item_at (start_of text.now) ≡ Ok (e, q)
        → spec.BeginsWithItemKey result.now e }
{
    if byte_at(text, TYPE_OFFSET) == DEAD {
        after(text, 8)
    } else {
        after(text, 12)
    }
}
