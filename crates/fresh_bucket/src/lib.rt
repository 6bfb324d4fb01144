//! The fresh bucket of a close: what the close changed of the entries, as a file.
#![tactic(auto)]

mod fresh;
mod item_ref;
mod items;
mod write;

pub use fresh::fresh_bucket;
