//! Items where they are in their files.

ghost use Rattle.std.specs.Prelude.{◌≡◌, IfOk};
ghost use Rattle.bucket_items.specs.Item.{Shows, item_type};
ghost use Rattle.bucket_items.specs.KeyText.{IsKeyText};
ghost use Rattle.ledger_types.specs.declared.key.LedgerKey.{LedgerKey as AKey};
ghost use Rattle.ledger_types.specs.KeyOrder.{key_cmp};
ghost use Rattle.bucket_core.specs.Stored.{IsStored, stored_in};

use bucket_items::{BucketEntryType, BucketItem, from_key, item_text, next_item, order_prefix};
use ledger_types::BucketEntry;
use std::alloc::{AllocError, Global};
use std::cmp::Ordering;
use std::marker::Model;
use xdr_core::{Cursor, ReadFault};
use xdr_entries::read_bucket_entry;

/// An item with a key where it is in its file, which takes no memory. Contracts see the item
/// under its key.
#[derive(Drop)]
pub struct StoredItem<'a> {
    // The item's record, and what comes after it.
    text: &'a [u8],
}

impl<'a> Model for StoredItem<'a> {
    ghost use Rattle.std.specs.Coded.{coded×};
    ghost use Rattle.ledger_types.specs.declared.bucket.BucketEntry.{BucketEntry};
    ghost use Rattle.ledger_types.specs.declared.key.LedgerKey.{LedgerKey};
    ghost use Rattle.ledger_types.specs.contracts.bucket.BucketEntry as items;
    ghost use Rattle.ledger_types.specs.contracts.key.LedgerKey as keys;
    ghost use Rattle.bucket_core.specs.Stored.{IsStored, stored_in};

    ghost Value = { LedgerKey × BucketEntry };

    ghost coded = { coded× keys.the_row.coded items.the_row.coded };

    ghost view = { λ stored. stored_in stored.text.now };

    ghost invariant = { λ stored. IsStored stored.text.now };
}

impl<'a> StoredItem<'a> {
    /// The item whose record is at the start of a text.
    pub(crate) fn new(text: &'a [u8]) -> StoredItem<'a>
        requires { IsStored text.now }
        ensures { result ≡ stored_in text.now }
    {
        StoredItem { text }
    }

    /// The same item once more.
    pub fn again(&self) -> StoredItem<'a>
        ensures { result ≡ self.now }
    {
        StoredItem { text: self.text }
    }

    /// What is stated of the item without memory.
    fn shown(&self) -> BucketItem<'a>
        ensures shows { Shows result result.bytes.now self.now.1 }
        ensures key { IsKeyText result.key.now self.now.0 }
    {
        match next_item(&mut Cursor::new(self.text)) {
            Some(item) => item,
            None => unreachable!(),
        }
    }

    /// The text of the item's key.
    pub fn key(&self) -> &'a [u8]
        ensures { IsKeyText result.now self.now.0 }
    {
        self.shown().key
    }

    /// How the item's key compares to another, by the other's text. No more is read of the item than its key.
    pub fn order(&self, key: &[u8]) -> Ordering
        ensures { (k : AKey) → IsKeyText key.now k → result ≡ key_cmp self.now.0 k }
    {
        order_prefix(from_key(self.text), key)
    }

    /// What the item says of its key.
    pub fn mark(&self) -> BucketEntryType
        ensures { result ≡ item_type self.now.1 }
    {
        self.shown().mark
    }

    /// The item.
    pub fn read(&self, alloc: Global) -> Result<BucketEntry, AllocError>
        ensures { IfOk result (λ item. item ≡ self.now.1) }
    {
        let mut ahead = Cursor::new(item_text(self.text));
        match read_bucket_entry(alloc, &mut ahead) {
            Ok(entry) => Ok(entry),
            Err(ReadFault::NoMemory) => Err(AllocError),
            Err(ReadFault::Xdr(_)) => unreachable!(),
        }
    }
}
