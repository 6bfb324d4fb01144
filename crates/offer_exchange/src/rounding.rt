//! Whom rounding may cost.

/// How a trade is rounded (RoundingType in OfferExchange of stellar-core).
#[derive(Clone, Copy, PartialEq, Eq)]
pub enum Rounding {
    /// Neither side loses more than a hundredth.
    Normal,
    /// All that the taker can send is sent.
    StrictSend,
    /// All that the taker can receive is received.
    StrictReceive,
}
