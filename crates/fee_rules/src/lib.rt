//! The order of a set's transactions, what they are charged, and the hash of a set.
#![tactic(auto)]

mod encoding;
mod envelope;
mod fees;
mod hashed;
mod order;
mod queued;
mod set_digest;
mod turn;

pub use envelope::{fee_source, not_below_0, seq_num, source};
pub use fees::{after_fee, fee_charged, set_base_fee};
pub use order::{SetOrder, apply_order, set_order};
