//! What a taker asks.

use ledger_types::{AccountId, Asset, Price};
use offer_exchange::Rounding;

/// How many offers an operation may cross (MAX_OFFERS_TO_CROSS in stellar-core).
pub const MOST_CROSSINGS: u32 = 1000;

/// A trade with the book of offers that sell `wheat` for `sheep`.
#[derive(Clone, Copy)]
pub struct Trade {
    /// What the taker sends.
    pub sheep: Asset,
    /// What it receives.
    pub wheat: Asset,
    /// How much it sends at most, at least 0.
    pub sheep_send: i64,
    /// How much it receives at most, at least 0.
    pub wheat_receive: i64,
    pub rounding: Rounding,
    /// The greatest price of wheat in sheep that it accepts, both parts at least 1.
    pub greatest: Option<Price>,
    /// Whether it doesn't accept the greatest price itself (CREATE_PASSIVE_SELL_OFFER).
    pub passive: bool,
    /// How many offers may still be crossed.
    pub crossings: u32,
    /// Whose own offers aren't crossed.
    pub taker: AccountId,
}
