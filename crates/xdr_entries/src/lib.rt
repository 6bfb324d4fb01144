//! The encodings of ledger entries, their keys and the items of buckets, read and written (protocols 18 and 19, over
//! RFC 4506).
//!
//! A reader answers the value that a prefix of the text encodes, and the cursor is after it; else it answers the first
//! fault in reading order, and the cursor is where it was. A reader whose error is `XdrFault` takes no memory, and
//! answers no allocation failure. A writer puts the encoding at the end of a text. The writers of entries, keys, items
//! of buckets and predicates say so themselves; the others, whose values are parts of wider ones, say it as `onto`,
//! which the laws show to be the same.
#![tactic(auto)]

mod account;
mod asset;
mod bucket;
mod bytes64;
mod claimable_balance;
mod data_entry;
mod entry;
mod ids;
mod key;
pub mod laws;
mod liquidity_pool;
mod offer;
mod predicate;
mod price;
mod signer;
mod trust_line;

pub use account::{
    read_account_entry, read_account_extension_v1, read_account_extension_v2,
    read_account_extension_v3, write_account_entry, write_account_extension_v1,
    write_account_extension_v2, write_account_extension_v3,
};
pub use asset::{
    AssetFormat, read_asset, read_change_trust_asset, read_pool_params, read_trust_line_asset,
    write_asset, write_change_trust_asset, write_pool_params, write_trust_line_asset,
};
pub use bucket::{read_bucket_entry, write_bucket_entry};
pub use bytes64::{read_bytes64, write_bytes64};
pub use claimable_balance::{
    ClaimantFormat, MAX_CLAIMANTS, read_claimable_balance_entry,
    read_claimable_balance_extension_v1, read_claimant, write_claimable_balance_entry,
    write_claimable_balance_extension_v1, write_claimant,
};
pub use data_entry::{MAX_DATA_NAME_LEN, MAX_DATA_VALUE_LEN, read_data_entry, write_data_entry};
pub use entry::{
    read_ledger_entry, read_ledger_entry_body, read_ledger_entry_extension_v1, write_ledger_entry,
    write_ledger_entry_body, write_ledger_entry_extension_v1,
};
pub use ids::{
    AccountIdFormat, MuxedAccountFormat, read_account_id, read_claimable_balance_id, read_hash,
    read_muxed_account, write_account_id, write_claimable_balance_id, write_hash,
    write_muxed_account,
};
pub use key::{read_ledger_key, write_ledger_key};
pub use liquidity_pool::{read_liquidity_pool_entry, write_liquidity_pool_entry};
pub use offer::{read_offer_entry, write_offer_entry};
pub use predicate::{read_claim_predicate, write_claim_predicate};
pub use price::{read_liabilities, read_price, write_liabilities, write_price};
pub use signer::{
    SignerFormat, SignerKeyFormat, read_signer, read_signer_key, write_signer, write_signer_key,
};
pub use trust_line::{
    read_trust_line_entry, read_trust_line_extension_v1, read_trust_line_extension_v2,
    write_trust_line_entry, write_trust_line_extension_v1, write_trust_line_extension_v2,
};
