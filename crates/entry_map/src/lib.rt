//! The entries of a ledger as a map with undo over a base that stays as it is, and the order books of its offers.
#![tactic(auto)]

mod base;
mod batch;
mod changes;
mod entries;
mod greater;
mod index;
mod key_map;
pub mod laws;
mod layer;
mod layered;
mod lookup;
mod map_base;
mod position;
mod walk;

pub use base::Base;
pub use batch::Batch;
pub use entries::Entries;
pub use greater::greater_account;
pub use index::{OfferIndex, push_offer};
pub use ledger_types;
pub use map_base::MapBase;
pub use walk::EntryWalk;
