//! Operations.

use crate::account_ops::{
    AccountMergeOp, BumpSequenceOp, CreateAccountOp, ManageDataOp, SetOptionsOp,
};
use crate::balance_ops::{
    ClaimClaimableBalanceOp, ClawbackClaimableBalanceOp, CreateClaimableBalanceOp,
};
use crate::offer_ops::{CreatePassiveSellOfferOp, ManageBuyOfferOp, ManageSellOfferOp};
use crate::payment_ops::{PathPaymentStrictReceiveOp, PathPaymentStrictSendOp, PaymentOp};
use crate::pool_ops::{LiquidityPoolDepositOp, LiquidityPoolWithdrawOp};
use crate::sponsor_ops::{BeginSponsoringFutureReservesOp, RevokeSponsorshipOp};
use crate::trust_ops::{AllowTrustOp, ChangeTrustOp, ClawbackOp, SetTrustLineFlagsOp};
use ledger_types::MuxedAccount;

/// What an operation does (the union `body` of Operation in Stellar-transaction.x), under its type.
#[derive(Drop)]
pub enum OperationBody {
    /// CREATE_ACCOUNT, 0.
    CreateAccount(CreateAccountOp),
    /// PAYMENT, 1.
    Payment(PaymentOp),
    /// PATH_PAYMENT_STRICT_RECEIVE, 2.
    PathPaymentStrictReceive(PathPaymentStrictReceiveOp),
    /// MANAGE_SELL_OFFER, 3.
    ManageSellOffer(ManageSellOfferOp),
    /// CREATE_PASSIVE_SELL_OFFER, 4.
    CreatePassiveSellOffer(CreatePassiveSellOfferOp),
    /// SET_OPTIONS, 5.
    SetOptions(SetOptionsOp),
    /// CHANGE_TRUST, 6.
    ChangeTrust(ChangeTrustOp),
    /// ALLOW_TRUST, 7.
    AllowTrust(AllowTrustOp),
    /// ACCOUNT_MERGE, 8.
    AccountMerge(AccountMergeOp),
    /// INFLATION, 9.
    Inflation,
    /// MANAGE_DATA, 10.
    ManageData(ManageDataOp),
    /// BUMP_SEQUENCE, 11.
    BumpSequence(BumpSequenceOp),
    /// MANAGE_BUY_OFFER, 12.
    ManageBuyOffer(ManageBuyOfferOp),
    /// PATH_PAYMENT_STRICT_SEND, 13.
    PathPaymentStrictSend(PathPaymentStrictSendOp),
    /// CREATE_CLAIMABLE_BALANCE, 14.
    CreateClaimableBalance(CreateClaimableBalanceOp),
    /// CLAIM_CLAIMABLE_BALANCE, 15.
    ClaimClaimableBalance(ClaimClaimableBalanceOp),
    /// BEGIN_SPONSORING_FUTURE_RESERVES, 16.
    BeginSponsoringFutureReserves(BeginSponsoringFutureReservesOp),
    /// END_SPONSORING_FUTURE_RESERVES, 17.
    EndSponsoringFutureReserves,
    /// REVOKE_SPONSORSHIP, 18.
    RevokeSponsorship(RevokeSponsorshipOp),
    /// CLAWBACK, 19.
    Clawback(ClawbackOp),
    /// CLAWBACK_CLAIMABLE_BALANCE, 20.
    ClawbackClaimableBalance(ClawbackClaimableBalanceOp),
    /// SET_TRUST_LINE_FLAGS, 21.
    SetTrustLineFlags(SetTrustLineFlagsOp),
    /// LIQUIDITY_POOL_DEPOSIT, 22.
    LiquidityPoolDeposit(LiquidityPoolDepositOp),
    /// LIQUIDITY_POOL_WITHDRAW, 23.
    LiquidityPoolWithdraw(LiquidityPoolWithdrawOp),
}

/// An operation (Operation in Stellar-transaction.x).
pub struct Operation {
    /// Whose operation it is; none represents the transaction's source.
    pub source_account: Option<MuxedAccount>,
    pub body: OperationBody,
}

impl Drop for Operation {
    fn drop(self) {
        let Operation {
            source_account: _,
            body,
        } = self;
        drop(body);
    }
}
