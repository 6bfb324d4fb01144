//! The items of a fresh bucket, where a batch has them.

use ledger_types::{LedgerEntry, LedgerKey};

/// An item of a fresh bucket, over the entry or the key that the batch has: INITENTRY, LIVEENTRY or DEADENTRY
/// (BucketEntry in Stellar-ledger.x).
#[derive(Drop)]
pub(crate) enum ItemRef<'a> {
    Init(&'a LedgerEntry),
    Live(&'a LedgerEntry),
    Dead(&'a LedgerKey),
}
