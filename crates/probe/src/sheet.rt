//! Entries whose children are opened and closed.

ghost use Rattle.std.specs.Prelude.{◌≡◌, ◌≤◌, length, OnOk};
ghost use Rattle.entry_map.specs.EntryMap.{erase};
ghost use Rattle.entry_map.specs.Undo.{with_current};

use entry_map::Entries;
use entry_slots::{erase_account, erase_balance, erase_data, erase_line, erase_offer, erase_pool};
use ledger_types::{LedgerEntry, LedgerKey};
use level_entries::PlacedEntries;
use std::alloc::{AllocError, Global};

/// Erases what has a key, by the call of its kind.
fn erase_by_kind(
    entries: &mut Entries<'_, PlacedEntries<'_>>,
    key: &LedgerKey,
) -> Result<(), AllocError>
    ensures { OnOk result (entries.new ≡ with_current entries.old (erase entries.old.current key.now)) }
{
    match key {
        LedgerKey::Account { account_id } => erase_account(entries, account_id),
        LedgerKey::TrustLine { account_id, asset } => erase_line(entries, account_id, asset),
        LedgerKey::Offer {
            seller_id,
            offer_id,
        } => erase_offer(entries, seller_id, *offer_id),
        LedgerKey::Data {
            account_id,
            data_name,
        } => erase_data(entries, account_id, data_name),
        LedgerKey::ClaimableBalance { balance_id } => erase_balance(entries, balance_id),
        LedgerKey::LiquidityPool { pool_id } => erase_pool(entries, pool_id),
    }
}

/// Entries over a table, and how many children are open at least. A step answers none where an allocation fails,
/// or no child is open for it.
#[derive(Drop)]
pub struct Sheet<'a> {
    /// The entries.
    pub entries: Entries<'a, PlacedEntries<'a>>,
    depth: usize,
    ghost open: { depth ≤ length entries.saved },
}

impl<'a> Sheet<'a> {
    /// The entries of a table.
    pub fn new(alloc: Global, table: &'a PlacedEntries<'a>) -> Option<Sheet<'a>> {
        let entries = Entries::new(alloc, table).ok()?;
        Some(Sheet { entries, depth: 0 })
    }

    /// Puts an entry.
    pub fn put(&mut self, entry: LedgerEntry) -> Option<()> {
        let is_put = self.entries.put(entry).is_ok();
        if !is_put {
            self.depth = 0;
        }
        is_put.then_some(())
    }

    /// Erases what has a key.
    pub fn erase(&mut self, key: &LedgerKey) -> Option<()> {
        let is_erased = erase_by_kind(&mut self.entries, key).is_ok();
        if !is_erased {
            self.depth = 0;
        }
        is_erased.then_some(())
    }

    /// Opens a child.
    pub fn child(&mut self) -> Option<()> {
        let is_opened = self.entries.child().is_ok();
        self.depth = if is_opened {
            self.depth.saturating_add(1)
        } else {
            0
        };
        is_opened.then_some(())
    }

    /// Keeps the newest child.
    pub fn keep(&mut self) -> Option<()> {
        if self.depth == 0 {
            return None;
        }
        let is_kept = self.entries.commit().is_ok();
        self.depth = if is_kept { self.depth - 1 } else { 0 };
        is_kept.then_some(())
    }

    /// Gives the newest child up.
    pub fn undo(&mut self) -> Option<()> {
        if self.depth == 0 {
            return None;
        }
        self.entries.drop_child();
        self.depth -= 1;
        Some(())
    }
}
