//! Payments.

use item_list::ItemList;
use ledger_types::{Asset, MuxedAccount};

/// Sends an amount of an asset (PaymentOp in Stellar-transaction.x).
#[derive(Clone, Copy)]
pub struct PaymentOp {
    pub destination: MuxedAccount,
    pub asset: Asset,
    pub amount: i64,
}

/// Sends whatever is needed of one asset so that the destination gets a fixed amount of another
/// (PathPaymentStrictReceiveOp in Stellar-transaction.x).
#[derive(Drop)]
pub struct PathPaymentStrictReceiveOp {
    pub send_asset: Asset,
    /// The most that is sent.
    pub send_max: i64,
    pub destination: MuxedAccount,
    pub dest_asset: Asset,
    /// What the destination gets.
    pub dest_amount: i64,
    /// The assets between the two, in order. At most 5.
    pub path: ItemList<Asset>,
}

/// Sends a fixed amount of one asset, of which the destination gets what comes of another (PathPaymentStrictSendOp in
/// Stellar-transaction.x).
#[derive(Drop)]
pub struct PathPaymentStrictSendOp {
    pub send_asset: Asset,
    /// What is sent.
    pub send_amount: i64,
    pub destination: MuxedAccount,
    pub dest_asset: Asset,
    /// The least that the destination gets.
    pub dest_min: i64,
    /// The assets between the two, in order. At most 5.
    pub path: ItemList<Asset>,
}
