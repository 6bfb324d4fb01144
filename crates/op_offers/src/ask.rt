//! What an operation on offers asks for.

ghost use Rattle.std.specs.Prelude.{◌≡◌};
ghost use Rattle.op_offers.specs.Asked as spec;

use ledger_types::{Asset, Price};
use op_types::{CreatePassiveSellOfferOp, ManageBuyOfferOp, ManageSellOfferOp};
use valid_values::is_valid_asset;

/// What an operation on offers asks for, whatever its type (ManageOfferOpFrameBase in stellar-core).
#[derive(Clone, Copy)]
pub struct Ask {
    pub selling: Asset,
    pub buying: Asset,
    /// What is sold or bought at most, as the operation says it; 0 removes the offer.
    pub amount: i64,
    /// The most that is sold, where there is a limit.
    pub sells: Option<i64>,
    /// The most that is bought, where there is a limit.
    pub buys: Option<i64>,
    /// What is asked for one unit of what is sold.
    pub price: Price,
    /// 0 makes an offer.
    pub offer_id: i64,
    /// Of an offer that is made.
    pub flags: u32,
}

/// A price, turned round.
pub fn inverse(price: Price) -> Price
    ensures { result ≡ spec.inverse price }
{
    Price {
        n: price.d,
        d: price.n,
    }
}

/// What MANAGE_SELL_OFFER asks for.
pub fn ask_to_sell(op: &ManageSellOfferOp) -> Ask
    ensures { result ≡ spec.ask_to_sell op.now }
{
    Ask {
        selling: op.selling,
        buying: op.buying,
        amount: op.amount,
        sells: Some(op.amount),
        buys: None,
        price: op.price,
        offer_id: op.offer_id,
        flags: 0,
    }
}

/// What CREATE_PASSIVE_SELL_OFFER asks for.
pub fn ask_passively(op: &CreatePassiveSellOfferOp) -> Ask
    ensures { result ≡ spec.ask_passively op.now }
{
    Ask {
        selling: op.selling,
        buying: op.buying,
        amount: op.amount,
        sells: Some(op.amount),
        buys: None,
        price: op.price,
        offer_id: 0,
        flags: 1,
    }
}

/// What MANAGE_BUY_OFFER asks for.
pub fn ask_to_buy(op: &ManageBuyOfferOp) -> Ask
    ensures { result ≡ spec.ask_to_buy op.now }
{
    Ask {
        selling: op.selling,
        buying: op.buying,
        amount: op.buy_amount,
        sells: None,
        buys: Some(op.buy_amount),
        price: inverse(op.price),
        offer_id: op.offer_id,
        flags: 0,
    }
}

/// Whether the assets are no pair that can be traded.
fn is_no_pair(ask: &Ask) -> bool
    ensures { result ≡ spec.is_no_pair ask.now }
{
    !is_valid_asset(&ask.selling)
        || !is_valid_asset(&ask.buying)
        || ask.selling.is_same(&ask.buying)
}

/// Whether a number is out of its range.
fn is_out_of_range(ask: &Ask) -> bool
    ensures { result ≡ spec.is_out_of_range ask.now }
{
    ask.amount < 0
        || ask.price.n <= 0
        || ask.price.d <= 0
        || ask.offer_id < 0
        || (ask.amount == 0 && ask.offer_id == 0)
}

/// Whether a field of the operation is not valid.
pub fn is_malformed(ask: &Ask) -> bool
    ensures { result ≡ spec.is_malformed ask.now }
{
    is_no_pair(ask) || is_out_of_range(ask)
}
