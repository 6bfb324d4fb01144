//! What CREATE_ACCOUNT and payments answer.

ghost use Rattle.op_types.specs.Codes.{create_account_code, create_account_values, payment_code, payment_values};
ghost use Rattle.op_types.specs.Codes.{path_payment_strict_receive_code, path_payment_strict_receive_values};
ghost use Rattle.op_types.specs.Codes.{path_payment_strict_send_code, path_payment_strict_send_values};

use crate::coded::Coded;
use item_list::ItemList;
use ledger_types::{AccountId, Asset, ClaimAtom};

/// What a payment along a path moved (PathPaymentStrictReceiveResult and PathPaymentStrictSendResult in
/// Stellar-transaction.x).
#[derive(Drop)]
pub struct PathPaymentSuccess {
    /// What was traded, in the direction from what was sent to what arrived.
    pub offers: ItemList<ClaimAtom>,
    /// What arrived (SimplePaymentResult).
    pub last: SimplePaymentResult,
}

/// What arrived at the end of a path (SimplePaymentResult in Stellar-transaction.x).
#[derive(Clone, Copy)]
pub struct SimplePaymentResult {
    pub destination: AccountId,
    pub asset: Asset,
    pub amount: i64,
}

/// What CREATE_ACCOUNT answers (CreateAccountResult in Stellar-transaction.x).
#[derive(Clone, Copy)]
pub enum CreateAccountResult {
    /// CREATE_ACCOUNT_SUCCESS, 0.
    Success,
    /// CREATE_ACCOUNT_MALFORMED, -1.
    Malformed,
    /// CREATE_ACCOUNT_UNDERFUNDED, -2.
    Underfunded,
    /// CREATE_ACCOUNT_LOW_RESERVE, -3.
    LowReserve,
    /// CREATE_ACCOUNT_ALREADY_EXIST, -4.
    AlreadyExist,
}

impl Coded for CreateAccountResult {
    ghost values = { create_account_values };

    ghost number = { create_account_code };

    fn from_code(code: i32) -> Option<CreateAccountResult> {
        match code {
            0 => Some(CreateAccountResult::Success),
            -1 => Some(CreateAccountResult::Malformed),
            -2 => Some(CreateAccountResult::Underfunded),
            -3 => Some(CreateAccountResult::LowReserve),
            -4 => Some(CreateAccountResult::AlreadyExist),
            _ => None,
        }
    }

    fn code(&self) -> i32 {
        match self {
            CreateAccountResult::Success => 0,
            CreateAccountResult::Malformed => -1,
            CreateAccountResult::Underfunded => -2,
            CreateAccountResult::LowReserve => -3,
            CreateAccountResult::AlreadyExist => -4,
        }
    }
}

/// What PAYMENT answers (PaymentResult in Stellar-transaction.x).
#[derive(Clone, Copy)]
pub enum PaymentResult {
    /// PAYMENT_SUCCESS, 0.
    Success,
    /// PAYMENT_MALFORMED, -1.
    Malformed,
    /// PAYMENT_UNDERFUNDED, -2.
    Underfunded,
    /// PAYMENT_SRC_NO_TRUST, -3.
    SrcNoTrust,
    /// PAYMENT_SRC_NOT_AUTHORIZED, -4.
    SrcNotAuthorized,
    /// PAYMENT_NO_DESTINATION, -5.
    NoDestination,
    /// PAYMENT_NO_TRUST, -6.
    NoTrust,
    /// PAYMENT_NOT_AUTHORIZED, -7.
    NotAuthorized,
    /// PAYMENT_LINE_FULL, -8.
    LineFull,
    /// PAYMENT_NO_ISSUER, -9.
    NoIssuer,
}

impl Coded for PaymentResult {
    ghost values = { payment_values };

    ghost number = { payment_code };

    fn from_code(code: i32) -> Option<PaymentResult> {
        match code {
            0 => Some(PaymentResult::Success),
            -1 => Some(PaymentResult::Malformed),
            -2 => Some(PaymentResult::Underfunded),
            -3 => Some(PaymentResult::SrcNoTrust),
            -4 => Some(PaymentResult::SrcNotAuthorized),
            -5 => Some(PaymentResult::NoDestination),
            -6 => Some(PaymentResult::NoTrust),
            -7 => Some(PaymentResult::NotAuthorized),
            -8 => Some(PaymentResult::LineFull),
            -9 => Some(PaymentResult::NoIssuer),
            _ => None,
        }
    }

    fn code(&self) -> i32 {
        match self {
            PaymentResult::Success => 0,
            PaymentResult::Malformed => -1,
            PaymentResult::Underfunded => -2,
            PaymentResult::SrcNoTrust => -3,
            PaymentResult::SrcNotAuthorized => -4,
            PaymentResult::NoDestination => -5,
            PaymentResult::NoTrust => -6,
            PaymentResult::NotAuthorized => -7,
            PaymentResult::LineFull => -8,
            PaymentResult::NoIssuer => -9,
        }
    }
}

/// What PATH_PAYMENT_STRICT_RECEIVE answers (PathPaymentStrictReceiveResult in Stellar-transaction.x).
#[derive(Drop)]
pub enum PathPaymentStrictReceiveResult {
    /// PATH_PAYMENT_STRICT_RECEIVE_SUCCESS, 0.
    Success(PathPaymentSuccess),
    /// PATH_PAYMENT_STRICT_RECEIVE_MALFORMED, -1.
    Malformed,
    /// PATH_PAYMENT_STRICT_RECEIVE_UNDERFUNDED, -2.
    Underfunded,
    /// PATH_PAYMENT_STRICT_RECEIVE_SRC_NO_TRUST, -3.
    SrcNoTrust,
    /// PATH_PAYMENT_STRICT_RECEIVE_SRC_NOT_AUTHORIZED, -4.
    SrcNotAuthorized,
    /// PATH_PAYMENT_STRICT_RECEIVE_NO_DESTINATION, -5.
    NoDestination,
    /// PATH_PAYMENT_STRICT_RECEIVE_NO_TRUST, -6.
    NoTrust,
    /// PATH_PAYMENT_STRICT_RECEIVE_NOT_AUTHORIZED, -7.
    NotAuthorized,
    /// PATH_PAYMENT_STRICT_RECEIVE_LINE_FULL, -8.
    LineFull,
    /// PATH_PAYMENT_STRICT_RECEIVE_NO_ISSUER, -9.
    NoIssuer(Asset),
    /// PATH_PAYMENT_STRICT_RECEIVE_TOO_FEW_OFFERS, -10.
    TooFewOffers,
    /// PATH_PAYMENT_STRICT_RECEIVE_OFFER_CROSS_SELF, -11.
    OfferCrossSelf,
    /// PATH_PAYMENT_STRICT_RECEIVE_OVER_SENDMAX, -12.
    OverSendmax,
}

impl Coded for PathPaymentStrictReceiveResult {
    ghost values = { path_payment_strict_receive_values };

    ghost number = { path_payment_strict_receive_code };

    fn from_code(code: i32) -> Option<PathPaymentStrictReceiveResult> {
        match code {
            -1 => Some(PathPaymentStrictReceiveResult::Malformed),
            -2 => Some(PathPaymentStrictReceiveResult::Underfunded),
            -3 => Some(PathPaymentStrictReceiveResult::SrcNoTrust),
            -4 => Some(PathPaymentStrictReceiveResult::SrcNotAuthorized),
            -5 => Some(PathPaymentStrictReceiveResult::NoDestination),
            -6 => Some(PathPaymentStrictReceiveResult::NoTrust),
            -7 => Some(PathPaymentStrictReceiveResult::NotAuthorized),
            -8 => Some(PathPaymentStrictReceiveResult::LineFull),
            -10 => Some(PathPaymentStrictReceiveResult::TooFewOffers),
            -11 => Some(PathPaymentStrictReceiveResult::OfferCrossSelf),
            -12 => Some(PathPaymentStrictReceiveResult::OverSendmax),
            _ => None,
        }
    }

    fn code(&self) -> i32 {
        match self {
            PathPaymentStrictReceiveResult::Success(_) => 0,
            PathPaymentStrictReceiveResult::Malformed => -1,
            PathPaymentStrictReceiveResult::Underfunded => -2,
            PathPaymentStrictReceiveResult::SrcNoTrust => -3,
            PathPaymentStrictReceiveResult::SrcNotAuthorized => -4,
            PathPaymentStrictReceiveResult::NoDestination => -5,
            PathPaymentStrictReceiveResult::NoTrust => -6,
            PathPaymentStrictReceiveResult::NotAuthorized => -7,
            PathPaymentStrictReceiveResult::LineFull => -8,
            PathPaymentStrictReceiveResult::NoIssuer(_) => -9,
            PathPaymentStrictReceiveResult::TooFewOffers => -10,
            PathPaymentStrictReceiveResult::OfferCrossSelf => -11,
            PathPaymentStrictReceiveResult::OverSendmax => -12,
        }
    }
}

/// What PATH_PAYMENT_STRICT_SEND answers (PathPaymentStrictSendResult in Stellar-transaction.x).
#[derive(Drop)]
pub enum PathPaymentStrictSendResult {
    /// PATH_PAYMENT_STRICT_SEND_SUCCESS, 0.
    Success(PathPaymentSuccess),
    /// PATH_PAYMENT_STRICT_SEND_MALFORMED, -1.
    Malformed,
    /// PATH_PAYMENT_STRICT_SEND_UNDERFUNDED, -2.
    Underfunded,
    /// PATH_PAYMENT_STRICT_SEND_SRC_NO_TRUST, -3.
    SrcNoTrust,
    /// PATH_PAYMENT_STRICT_SEND_SRC_NOT_AUTHORIZED, -4.
    SrcNotAuthorized,
    /// PATH_PAYMENT_STRICT_SEND_NO_DESTINATION, -5.
    NoDestination,
    /// PATH_PAYMENT_STRICT_SEND_NO_TRUST, -6.
    NoTrust,
    /// PATH_PAYMENT_STRICT_SEND_NOT_AUTHORIZED, -7.
    NotAuthorized,
    /// PATH_PAYMENT_STRICT_SEND_LINE_FULL, -8.
    LineFull,
    /// PATH_PAYMENT_STRICT_SEND_NO_ISSUER, -9.
    NoIssuer(Asset),
    /// PATH_PAYMENT_STRICT_SEND_TOO_FEW_OFFERS, -10.
    TooFewOffers,
    /// PATH_PAYMENT_STRICT_SEND_OFFER_CROSS_SELF, -11.
    OfferCrossSelf,
    /// PATH_PAYMENT_STRICT_SEND_UNDER_DESTMIN, -12.
    UnderDestmin,
}

impl Coded for PathPaymentStrictSendResult {
    ghost values = { path_payment_strict_send_values };

    ghost number = { path_payment_strict_send_code };

    fn from_code(code: i32) -> Option<PathPaymentStrictSendResult> {
        match code {
            -1 => Some(PathPaymentStrictSendResult::Malformed),
            -2 => Some(PathPaymentStrictSendResult::Underfunded),
            -3 => Some(PathPaymentStrictSendResult::SrcNoTrust),
            -4 => Some(PathPaymentStrictSendResult::SrcNotAuthorized),
            -5 => Some(PathPaymentStrictSendResult::NoDestination),
            -6 => Some(PathPaymentStrictSendResult::NoTrust),
            -7 => Some(PathPaymentStrictSendResult::NotAuthorized),
            -8 => Some(PathPaymentStrictSendResult::LineFull),
            -10 => Some(PathPaymentStrictSendResult::TooFewOffers),
            -11 => Some(PathPaymentStrictSendResult::OfferCrossSelf),
            -12 => Some(PathPaymentStrictSendResult::UnderDestmin),
            _ => None,
        }
    }

    fn code(&self) -> i32 {
        match self {
            PathPaymentStrictSendResult::Success(_) => 0,
            PathPaymentStrictSendResult::Malformed => -1,
            PathPaymentStrictSendResult::Underfunded => -2,
            PathPaymentStrictSendResult::SrcNoTrust => -3,
            PathPaymentStrictSendResult::SrcNotAuthorized => -4,
            PathPaymentStrictSendResult::NoDestination => -5,
            PathPaymentStrictSendResult::NoTrust => -6,
            PathPaymentStrictSendResult::NotAuthorized => -7,
            PathPaymentStrictSendResult::LineFull => -8,
            PathPaymentStrictSendResult::NoIssuer(_) => -9,
            PathPaymentStrictSendResult::TooFewOffers => -10,
            PathPaymentStrictSendResult::OfferCrossSelf => -11,
            PathPaymentStrictSendResult::UnderDestmin => -12,
        }
    }
}
