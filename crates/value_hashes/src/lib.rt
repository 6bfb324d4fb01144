//! The hashes of values: of transactions, each preceded by the network's id and the type of its envelope, of envelopes,
//! of a ledger's header and of its results, each SHA-256 (FIPS 180-4) of the one encoding.
#![tactic(auto)]

mod envelope;
mod ledger;
mod transaction;

pub use envelope::{envelope_hash, signed_hash};
pub use ledger::{ledger_hash, results_hash};
pub use transaction::transaction_hash;
