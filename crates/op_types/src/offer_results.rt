//! What offers answer.

ghost use Rattle.op_types.specs.Codes.{manage_offer_code, manage_offer_values};

use crate::coded::Coded;
use item_list::ItemList;
use ledger_types::{ClaimAtom, OfferEntry};

/// What became of an offer (the union in ManageOfferSuccessResult in Stellar-transaction.x).
#[derive(Clone, Copy)]
pub enum ManageOfferEffect {
    /// MANAGE_OFFER_CREATED, 0.
    Created(OfferEntry),
    /// MANAGE_OFFER_UPDATED, 1.
    Updated(OfferEntry),
    /// MANAGE_OFFER_DELETED, 2.
    Deleted,
}

/// What an offer took, and what is left of it (ManageOfferSuccessResult in Stellar-transaction.x).
#[derive(Drop)]
pub struct ManageOfferSuccess {
    pub offers_claimed: ItemList<ClaimAtom>,
    pub offer: ManageOfferEffect,
}

/// What MANAGE_SELL_OFFER, CREATE_PASSIVE_SELL_OFFER and MANAGE_BUY_OFFER answer (ManageSellOfferResult and
/// ManageBuyOfferResult in Stellar-transaction.x, whose codes are the same).
#[derive(Drop)]
pub enum ManageOfferResult {
    /// MANAGE_SELL_OFFER_SUCCESS, 0.
    Success(ManageOfferSuccess),
    /// MANAGE_SELL_OFFER_MALFORMED, -1.
    Malformed,
    /// MANAGE_SELL_OFFER_SELL_NO_TRUST, -2.
    SellNoTrust,
    /// MANAGE_SELL_OFFER_BUY_NO_TRUST, -3.
    BuyNoTrust,
    /// MANAGE_SELL_OFFER_SELL_NOT_AUTHORIZED, -4.
    SellNotAuthorized,
    /// MANAGE_SELL_OFFER_BUY_NOT_AUTHORIZED, -5.
    BuyNotAuthorized,
    /// MANAGE_SELL_OFFER_LINE_FULL, -6.
    LineFull,
    /// MANAGE_SELL_OFFER_UNDERFUNDED, -7.
    Underfunded,
    /// MANAGE_SELL_OFFER_CROSS_SELF, -8.
    CrossSelf,
    /// MANAGE_SELL_OFFER_SELL_NO_ISSUER, -9.
    SellNoIssuer,
    /// MANAGE_SELL_OFFER_BUY_NO_ISSUER, -10.
    BuyNoIssuer,
    /// MANAGE_SELL_OFFER_NOT_FOUND, -11.
    NotFound,
    /// MANAGE_SELL_OFFER_LOW_RESERVE, -12.
    LowReserve,
}

impl Coded for ManageOfferResult {
    ghost values = { manage_offer_values };

    ghost number = { manage_offer_code };

    fn from_code(code: i32) -> Option<ManageOfferResult> {
        match code {
            -1 => Some(ManageOfferResult::Malformed),
            -2 => Some(ManageOfferResult::SellNoTrust),
            -3 => Some(ManageOfferResult::BuyNoTrust),
            -4 => Some(ManageOfferResult::SellNotAuthorized),
            -5 => Some(ManageOfferResult::BuyNotAuthorized),
            -6 => Some(ManageOfferResult::LineFull),
            -7 => Some(ManageOfferResult::Underfunded),
            -8 => Some(ManageOfferResult::CrossSelf),
            -9 => Some(ManageOfferResult::SellNoIssuer),
            -10 => Some(ManageOfferResult::BuyNoIssuer),
            -11 => Some(ManageOfferResult::NotFound),
            -12 => Some(ManageOfferResult::LowReserve),
            _ => None,
        }
    }

    fn code(&self) -> i32 {
        match self {
            ManageOfferResult::Success(_) => 0,
            ManageOfferResult::Malformed => -1,
            ManageOfferResult::SellNoTrust => -2,
            ManageOfferResult::BuyNoTrust => -3,
            ManageOfferResult::SellNotAuthorized => -4,
            ManageOfferResult::BuyNotAuthorized => -5,
            ManageOfferResult::LineFull => -6,
            ManageOfferResult::Underfunded => -7,
            ManageOfferResult::CrossSelf => -8,
            ManageOfferResult::SellNoIssuer => -9,
            ManageOfferResult::BuyNoIssuer => -10,
            ManageOfferResult::NotFound => -11,
            ManageOfferResult::LowReserve => -12,
        }
    }
}
