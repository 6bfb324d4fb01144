//! What a trade with a resting offer moves, what an offer can really give, and what it binds (OfferExchange in
//! stellar-core; CAP-0003). Exact for all prices and bounds; no call takes memory.
#![tactic(auto)]

mod bounds;
mod offers;
mod rounding;
mod rows;
mod table;
mod trade;
mod zero_rules;

pub use bounds::Bounds;
pub use offers::{adjust, liabilities, wanted};
pub use rounding::Rounding;
pub use trade::{Exchanged, exchange};
