//! Liquidity pools.

use ledger_types::{Hash, Price};

/// Puts two assets into a pool (LiquidityPoolDepositOp in Stellar-transaction.x; CAP-0038).
#[derive(Clone, Copy)]
pub struct LiquidityPoolDepositOp {
    pub pool_id: Hash,
    pub max_amount_a: i64,
    pub max_amount_b: i64,
    /// The least amount of the first asset for one unit of the second.
    pub min_price: Price,
    /// The greatest amount of the first asset for one unit of the second.
    pub max_price: Price,
}

/// Takes two assets out of a pool (LiquidityPoolWithdrawOp in Stellar-transaction.x; CAP-0038).
#[derive(Clone, Copy)]
pub struct LiquidityPoolWithdrawOp {
    pub pool_id: Hash,
    /// In shares.
    pub amount: i64,
    pub min_amount_a: i64,
    pub min_amount_b: i64,
}
