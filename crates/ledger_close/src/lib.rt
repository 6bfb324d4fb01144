//! A ledger that closes: from a start image on, one record after the other (LedgerManagerImpl in stellar-core).
#![tactic(auto)]

mod apply;
mod buckets;
mod heading;
mod image;
mod ledger;
mod leveling;
mod merges;
mod next_entries;
mod prepare;
mod prepared;
mod refusals;
mod view;
mod warming;

pub use close_laws;
pub use close_rules::{CloseFault, ImageFault, ImageRule};
pub use entry_map::Batch;
pub use ledger::Ledger;
pub use prepared::{DetailedClose, Prepared};
pub use view::View;
