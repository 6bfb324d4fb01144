//! The books of offers: the best offer of a pair of assets, and the offers of an account.
#![tactic(auto)]

mod book;
mod sold;

pub use book::best;
pub use sold::{of_account, sold_entries};
