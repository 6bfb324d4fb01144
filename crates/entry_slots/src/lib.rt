//! The kinds of entries, each as a slot that is loaded, changed and stored again, and what their extensions say.
#![tactic(auto)]

mod account_extensions;
mod account_facts;
mod accounts;
mod balances;
mod data_entries;
mod entry_sponsor;
mod line_extensions;
mod lines;
mod offers;
mod pools;

pub use account_extensions::{
    account_liabilities, both_extensions, num_sponsored, num_sponsoring, seq_ledger, seq_time,
    set_account_liabilities, set_seq_num, signer_sponsor,
};
pub use account_facts::{AccountFacts, facts_of, load_facts};
pub use accounts::{
    AccountSlot, account_in, account_slot_in, erase_account, load_account, store_account,
};
pub use balances::{BalanceSlot, balance_slot_in, erase_balance, load_balance, store_balance};
pub use data_entries::{DataSlot, data_slot_in, erase_data, load_data, store_data};
pub use entry_map;
pub use entry_map::ledger_types;
pub use entry_sponsor::{set_sponsor, sponsor_in};
pub use line_extensions::{line_liabilities, set_line_liabilities, set_use_count, use_count};
pub use lines::{LineSlot, erase_line, line_slot_in, load_line, store_line};
pub use offers::{OfferSlot, erase_offer, load_offer, offer_slot_in, store_offer};
pub use pools::{PoolSlot, erase_pool, load_pool, pool_slot_in, store_pool};
