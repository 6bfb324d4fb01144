//! Merges that workers make beside the thread that closes ledgers: how that thread posts the merges that have begun and
//! takes in those that are finished, and how the workers get their slots, run and are gathered.
#![tactic(auto)]

mod adopting;
mod posting;
mod slots;
mod working;

pub use adopting::adopt;
pub use ledger_close;
pub use ledger_close::close_laws;
pub use posting::post_due;
pub use slots::{Side, SideEnd, WorkerSlot, Workshop, gather, hire};
pub use working::work_all;
