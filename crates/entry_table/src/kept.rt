//! Values under the keys of entries, which several rows share.

use ledger_types::LedgerKey;

/// A value under the key of an entry, which may have several owners.
pub type Kept<V> = shared_tree::Kept<LedgerKey, V>;
