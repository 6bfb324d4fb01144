//! A store of a ledger in the four files of a volume that may lose power: by turns in two files the image of a ledger,
//! and in two others the records of the closes since.
#![tactic(auto)]

mod gate;
mod hashing;
mod head;
pub mod laws;
mod mounted;
mod mounting;
mod piece;
mod store;
mod turn;

pub use gate_journal::{AppendBuf, StoreFault};
pub use head::image_offset;
pub use mounted::Mounted;
pub use store::Store;
