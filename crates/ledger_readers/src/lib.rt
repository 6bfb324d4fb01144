//! Readers beside a writer: a publisher puts views at the end of a list, and up to four readers look keys up in the
//! last view of some prefix of that list, and wait for nobody. The list exists in the proofs alone.
#![tactic(auto)]

mod last;
mod ledger_view;
mod lookup;
mod making;
mod prefix;
mod publisher;
mod reader;
mod side;

pub use last::last_reads;
pub use lookup::{Lookup, Read};
pub use making::make;
pub use prefix::{EmptyList, Publication};
pub use publisher::{Publisher, PublisherOf, Told};
pub use reader::LedgerReader;
