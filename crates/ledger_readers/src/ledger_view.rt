//! The ledger's state after a close, as its readers see it.

use crate::lookup::Lookup;
use ledger_close::View;
use ledger_types::{LedgerEntry, LedgerKey};
use std::alloc::AllocError;

impl Lookup for View {
    type Key = LedgerKey;

    type Entry = LedgerEntry;

    ghost use Rattle.std.specs.Prelude.{◌≡◌};
    ghost use Rattle.std.specs.FinMap.{get};

    ghost seq_of = { λ view. view.header.ledger_seq };

    ghost finds = { λ view key entry. entry ≡ get view.entries key };

    fn seq(&self) -> u32 {
        View::seq(self)
    }

    fn find(&self, key: &LedgerKey) -> Result<Option<LedgerEntry>, AllocError> {
        View::find(self, key)
    }
}
