//! What changed between two maps of entries.

use ledger_types::item_list::ItemList;
use ledger_types::{LedgerEntry, LedgerKey};

/// What changed, each list in the order of keys.
#[derive(Drop)]
pub struct Batch {
    /// Entries that were not there.
    pub init: ItemList<LedgerEntry>,
    /// Entries whose body or extension is another than it was.
    pub live: ItemList<LedgerEntry>,
    /// Keys of entries that are gone.
    pub dead: ItemList<LedgerKey>,
}
