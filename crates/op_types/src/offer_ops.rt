//! Offers.

use ledger_types::{Asset, Price};

/// Makes, changes or removes an offer that sells a fixed amount (ManageSellOfferOp in Stellar-transaction.x).
#[derive(Clone, Copy)]
pub struct ManageSellOfferOp {
    pub selling: Asset,
    pub buying: Asset,
    /// How much is sold at most; 0 removes the offer.
    pub amount: i64,
    /// What is asked for one unit of what is sold.
    pub price: Price,
    /// 0 makes an offer.
    pub offer_id: i64,
}

/// Makes an offer that takes no offer of an equal price (CreatePassiveSellOfferOp in Stellar-transaction.x).
#[derive(Clone, Copy)]
pub struct CreatePassiveSellOfferOp {
    pub selling: Asset,
    pub buying: Asset,
    /// How much is sold at most.
    pub amount: i64,
    /// What is asked for one unit of what is sold.
    pub price: Price,
}

/// Makes, changes or removes an offer that buys a fixed amount (ManageBuyOfferOp in Stellar-transaction.x).
#[derive(Clone, Copy)]
pub struct ManageBuyOfferOp {
    pub selling: Asset,
    pub buying: Asset,
    /// How much is bought at most; 0 removes the offer.
    pub buy_amount: i64,
    /// What is given for one unit of what is bought.
    pub price: Price,
    /// 0 makes an offer.
    pub offer_id: i64,
}
