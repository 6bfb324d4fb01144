//! The files in which an archive keeps closed ledgers: headers, transaction sets and results, each entry after its
//! record mark. Closes are added at their ends, and a history is verified: its three files have to form one chain.
#![tactic(auto)]

mod adding;
mod chain;
mod close_records;
mod closed;
mod codec;
mod entries;
mod facts;
mod form;
mod history;
pub mod laws;
mod numbers;
mod record_kind;
mod records;
mod screening;
mod stating;
mod verifying;

pub use adding::{AddCloseFault, add_close, add_records};
pub use closed::Closed;
pub use entries::{
    LedgerHeaderHistoryEntry, TransactionHistoryEntry, TransactionHistoryResultEntry,
};
pub use facts::{HeaderFact, RecordFact};
pub use form::{StatedHistory, read_stated_history, stated_history_length};
pub use history::{History, HistoryFault, Verified};
pub use stating::{file_length, stated_head};
pub use verifying::verify;
