//! Operations on the source's own account.

use item_list::ItemList;
use ledger_types::{AccountId, MuxedAccount, Signer};

/// Makes an account (CreateAccountOp in Stellar-transaction.x).
#[derive(Clone, Copy)]
pub struct CreateAccountOp {
    /// The new account.
    pub destination: AccountId,
    /// In stroops.
    pub starting_balance: i64,
}

/// Changes what an account is and who signs for it (SetOptionsOp in Stellar-transaction.x).
#[derive(Drop)]
pub struct SetOptionsOp {
    pub inflation_dest: Option<AccountId>,
    pub clear_flags: Option<u32>,
    pub set_flags: Option<u32>,
    /// The weight of the account's own key.
    pub master_weight: Option<u32>,
    pub low_threshold: Option<u32>,
    pub med_threshold: Option<u32>,
    pub high_threshold: Option<u32>,
    /// At most 32 bytes.
    pub home_domain: Option<ItemList<u8>>,
    /// A weight of 0 removes the signer.
    pub signer: Option<Signer>,
}

/// Removes the source and gives its lumens away (AccountMergeOp in Stellar-transaction.x).
#[derive(Clone, Copy)]
pub struct AccountMergeOp {
    pub destination: MuxedAccount,
}

/// Makes, changes or removes data (ManageDataOp in Stellar-transaction.x).
#[derive(Drop)]
pub struct ManageDataOp {
    /// At most 64 bytes.
    pub data_name: ItemList<u8>,
    /// At most 64 bytes; none removes the data.
    pub data_value: Option<ItemList<u8>>,
}

/// Raises the source's sequence number to `bump_to`, where that is above it (BumpSequenceOp in Stellar-transaction.x).
#[derive(Clone, Copy)]
pub struct BumpSequenceOp {
    pub bump_to: i64,
}
