//! A taker crosses the book of a pair, offer by offer, or trades with its pool (convertWithOffersAndPools in
//! stellar-core; CAP-0003).
#![tactic(auto)]

mod amounts;
mod cancel;
mod carry;
mod conversion;
mod crossed;
mod holding;
mod hops;
mod keys;
pub mod laws;
mod location;
mod plan;
mod pool_swap;
mod progress;
mod short;
mod side;
mod step;
mod trade;
mod turn;

pub use amounts::{acquire, most_given, most_taken, pay, release, take};
pub use cancel::{cancel_found, cancel_offer};
pub use conversion::convert;
pub use crossed::{CrossEnd, Crossed};
pub use hops::{hop, is_served};
pub use location::{Location, location_of};
pub use short::is_short;
pub use trade::{MOST_CROSSINGS, Trade};
