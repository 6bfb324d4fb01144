//! Claimable balances.

use item_list::ItemList;
use ledger_types::{Asset, ClaimableBalanceId, Claimant};

/// Makes a claimable balance (CreateClaimableBalanceOp in Stellar-transaction.x; CAP-0023).
#[derive(Drop)]
pub struct CreateClaimableBalanceOp {
    pub asset: Asset,
    pub amount: i64,
    /// At most 10.
    pub claimants: ItemList<Claimant>,
}

/// Claims a claimable balance (ClaimClaimableBalanceOp in Stellar-transaction.x; CAP-0023).
#[derive(Clone, Copy)]
pub struct ClaimClaimableBalanceOp {
    pub balance_id: ClaimableBalanceId,
}

/// Takes a claimable balance back whose asset the source issues (ClawbackClaimableBalanceOp in Stellar-transaction.x;
/// CAP-0035).
#[derive(Clone, Copy)]
pub struct ClawbackClaimableBalanceOp {
    pub balance_id: ClaimableBalanceId,
}
