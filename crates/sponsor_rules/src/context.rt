//! What an operation is applied in.

ghost use Rattle.std.specs.Prelude.{◌≡◌, ◌<◌};
ghost use Rattle.sponsor_rules.specs.SeqNums.{new_extension_v3};

use item_list::ItemList;
use ledger_types::{AccountEntryExtensionV3, AccountId};

/// A sponsorship that is open: `sponsor` pays the reserves of what `sponsored` adds (CAP-0033). That no account is
/// sponsored twice or by itself is for the operations that open sponsorships; nothing here asks for it.
#[derive(Clone, Copy)]
pub struct Sponsorship {
    pub sponsored: AccountId,
    pub sponsor: AccountId,
}

/// What an operation is applied in: the header's terms, the transaction and the operation that it belongs to, and the
/// sponsorships that are open.
#[derive(Drop)]
pub struct Ctx {
    /// The header's `ledger_seq`.
    pub seq: u32,
    /// The header's `ledger_version`.
    pub version: u32,
    /// The header's: in stroops, for each thing that an account keeps on the ledger.
    pub base_reserve: u32,
    /// The header's `flags`, 0 without its extension.
    pub flags: u32,
    /// In seconds since 1970-01-01T00:00:00Z.
    pub close_time: u64,
    pub tx_source: AccountId,
    /// The transaction's sequence number.
    pub tx_seq: i64,
    /// The index of the operation in its transaction, from 0.
    pub op_index: u32,
    pub op_source: AccountId,
    /// The greatest offer id so far.
    pub id_pool: u64,
    pub sponsorships: ItemList<Sponsorship>,
}

/// The first protocol in which accounts have extension V3: seqLedger and seqTime (CAP-0021).
const EXTENSION_V3_FROM: u32 = 19;

impl Ctx {
    /// The extension V3 of an account whose sequence number is set in this close.
    pub fn new_extension_v3(&self) -> Option<AccountEntryExtensionV3>
        requires { self.now.seq < 4294967295 }
        ensures { result ≡ new_extension_v3 self.now }
    {
        if self.version < EXTENSION_V3_FROM {
            return None;
        }
        Some(AccountEntryExtensionV3 {
            seq_ledger: self.seq + 1,
            seq_time: self.close_time,
        })
    }
}
