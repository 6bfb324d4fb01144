//! What closes one ledger.

ghost use Rattle.std.specs.Prelude.{◌≡◌};
ghost use Rattle.xdr_header.specs.Records.{vouches_in};

use item_list::ItemList;
use ledger_types::StellarValue;
use op_types::{TransactionSet, Vouch};

/// The transactions that close one ledger, and what the network agreed upon for it.
#[derive(Drop)]
pub struct CloseRecord {
    pub ledger_seq: u32,
    pub tx_set: TransactionSet,
    pub scp_value: StellarValue,
    /// What an outside verifier vouches for, in a record of form 2, at most 20,000; a record of form 1 has no place for
    /// it.
    pub vouches: Option<ItemList<Vouch>>,
}

impl CloseRecord {
    /// What is vouched for: nothing in a record of form 1.
    pub fn vouched(&self) -> &[Vouch]
        ensures { result.now ≡ vouches_in self.now.vouches }
    {
        match &self.vouches {
            None => &[],
            Some(vouches) => vouches.as_slice(),
        }
    }
}
