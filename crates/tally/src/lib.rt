//! What all entries of a ledger hold of an asset: lumens, or what its issuer has issued.
#![tactic(auto)]

mod holdings;
mod walk;

pub use walk::{lumens, supply};
