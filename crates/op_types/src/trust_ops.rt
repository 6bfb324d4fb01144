//! Trust lines, and what their issuers do.

use ledger_types::{AccountId, Asset, ChangeTrustAsset, MuxedAccount};

/// The code of an asset whose issuer is known (AssetCode in Stellar-ledger-entries.x).
#[derive(Clone, Copy)]
pub enum AssetCode {
    /// ASSET_TYPE_CREDIT_ALPHANUM4, 1.
    Alphanum4([u8; 4]),
    /// ASSET_TYPE_CREDIT_ALPHANUM12, 2.
    Alphanum12([u8; 12]),
}

/// Makes, changes or removes a trust line (ChangeTrustOp in Stellar-transaction.x).
#[derive(Clone, Copy)]
pub struct ChangeTrustOp {
    pub line: ChangeTrustAsset,
    /// 0 removes the line.
    pub limit: i64,
}

/// Says whether a trust line may be used (AllowTrustOp in Stellar-transaction.x).
#[derive(Clone, Copy)]
pub struct AllowTrustOp {
    pub trustor: AccountId,
    /// The code of an asset that the source issues.
    pub asset: AssetCode,
    /// 0, AUTHORIZED 1, or AUTHORIZED_TO_MAINTAIN_LIABILITIES 2 (CAP-0018).
    pub authorize: u32,
}

/// Changes the flags of a trust line in an asset that the source issues (SetTrustLineFlagsOp in Stellar-transaction.x;
/// CAP-0035).
#[derive(Clone, Copy)]
pub struct SetTrustLineFlagsOp {
    pub trustor: AccountId,
    pub asset: Asset,
    pub clear_flags: u32,
    pub set_flags: u32,
}

/// Takes an asset back that the source issues (ClawbackOp in Stellar-transaction.x; CAP-0035).
#[derive(Clone, Copy)]
pub struct ClawbackOp {
    pub asset: Asset,
    pub from: MuxedAccount,
    pub amount: i64,
}
