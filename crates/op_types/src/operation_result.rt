//! What operations answer.

ghost use Rattle.op_types.specs.Codes.{operation_code, operation_values};

use crate::account_results::{
    AccountMergeResult, BumpSequenceResult, InflationResult, ManageDataResult, SetOptionsResult,
};
use crate::balance_results::{
    ClaimClaimableBalanceResult, ClawbackClaimableBalanceResult, CreateClaimableBalanceResult,
};
use crate::coded::Coded;
use crate::offer_results::ManageOfferResult;
use crate::payment_results::{
    CreateAccountResult, PathPaymentStrictReceiveResult, PathPaymentStrictSendResult, PaymentResult,
};
use crate::pool_results::{LiquidityPoolDepositResult, LiquidityPoolWithdrawResult};
use crate::sponsor_results::{
    BeginSponsoringFutureReservesResult, EndSponsoringFutureReservesResult, RevokeSponsorshipResult,
};
use crate::trust_results::{
    AllowTrustResult, ChangeTrustResult, ClawbackResult, SetTrustLineFlagsResult,
};

/// What an operation answers that was run (OperationResultTr in Stellar-transaction.x), under its type.
#[derive(Drop)]
pub enum OperationResultTr {
    /// CREATE_ACCOUNT, 0.
    CreateAccount(CreateAccountResult),
    /// PAYMENT, 1.
    Payment(PaymentResult),
    /// PATH_PAYMENT_STRICT_RECEIVE, 2.
    PathPaymentStrictReceive(PathPaymentStrictReceiveResult),
    /// MANAGE_SELL_OFFER, 3.
    ManageSellOffer(ManageOfferResult),
    /// CREATE_PASSIVE_SELL_OFFER, 4.
    CreatePassiveSellOffer(ManageOfferResult),
    /// SET_OPTIONS, 5.
    SetOptions(SetOptionsResult),
    /// CHANGE_TRUST, 6.
    ChangeTrust(ChangeTrustResult),
    /// ALLOW_TRUST, 7.
    AllowTrust(AllowTrustResult),
    /// ACCOUNT_MERGE, 8.
    AccountMerge(AccountMergeResult),
    /// INFLATION, 9.
    Inflation(InflationResult),
    /// MANAGE_DATA, 10.
    ManageData(ManageDataResult),
    /// BUMP_SEQUENCE, 11.
    BumpSequence(BumpSequenceResult),
    /// MANAGE_BUY_OFFER, 12.
    ManageBuyOffer(ManageOfferResult),
    /// PATH_PAYMENT_STRICT_SEND, 13.
    PathPaymentStrictSend(PathPaymentStrictSendResult),
    /// CREATE_CLAIMABLE_BALANCE, 14.
    CreateClaimableBalance(CreateClaimableBalanceResult),
    /// CLAIM_CLAIMABLE_BALANCE, 15.
    ClaimClaimableBalance(ClaimClaimableBalanceResult),
    /// BEGIN_SPONSORING_FUTURE_RESERVES, 16.
    BeginSponsoringFutureReserves(BeginSponsoringFutureReservesResult),
    /// END_SPONSORING_FUTURE_RESERVES, 17.
    EndSponsoringFutureReserves(EndSponsoringFutureReservesResult),
    /// REVOKE_SPONSORSHIP, 18.
    RevokeSponsorship(RevokeSponsorshipResult),
    /// CLAWBACK, 19.
    Clawback(ClawbackResult),
    /// CLAWBACK_CLAIMABLE_BALANCE, 20.
    ClawbackClaimableBalance(ClawbackClaimableBalanceResult),
    /// SET_TRUST_LINE_FLAGS, 21.
    SetTrustLineFlags(SetTrustLineFlagsResult),
    /// LIQUIDITY_POOL_DEPOSIT, 22.
    LiquidityPoolDeposit(LiquidityPoolDepositResult),
    /// LIQUIDITY_POOL_WITHDRAW, 23.
    LiquidityPoolWithdraw(LiquidityPoolWithdrawResult),
}

/// What an operation answers (OperationResult in Stellar-transaction.x).
pub enum OperationResult {
    /// opINNER, 0: the operation was run.
    Inner(OperationResultTr),
    /// opBAD_AUTH, -1: the signatures don't reach the operation's threshold.
    BadAuth,
    /// opNO_ACCOUNT, -2: the source has no account.
    NoAccount,
    /// opNOT_SUPPORTED, -3.
    NotSupported,
    /// opTOO_MANY_SUBENTRIES, -4: an account would have more than 1000 subentries.
    TooManySubentries,
    /// opEXCEEDED_WORK_LIMIT, -5: more than 1000 offers would be crossed.
    ExceededWorkLimit,
    /// opTOO_MANY_SPONSORING, -6: an account would pay for too much.
    TooManySponsoring,
}

impl Drop for OperationResult {
    fn drop(self) {
        match self {
            OperationResult::Inner(inner) => drop(inner),
            OperationResult::BadAuth
            | OperationResult::NoAccount
            | OperationResult::NotSupported
            | OperationResult::TooManySubentries
            | OperationResult::ExceededWorkLimit
            | OperationResult::TooManySponsoring => {}
        }
    }
}

impl Coded for OperationResult {
    ghost values = { operation_values };

    ghost number = { operation_code };

    fn from_code(code: i32) -> Option<OperationResult> {
        match code {
            -1 => Some(OperationResult::BadAuth),
            -2 => Some(OperationResult::NoAccount),
            -3 => Some(OperationResult::NotSupported),
            -4 => Some(OperationResult::TooManySubentries),
            -5 => Some(OperationResult::ExceededWorkLimit),
            -6 => Some(OperationResult::TooManySponsoring),
            _ => None,
        }
    }

    fn code(&self) -> i32 {
        match self {
            OperationResult::Inner(_) => 0,
            OperationResult::BadAuth => -1,
            OperationResult::NoAccount => -2,
            OperationResult::NotSupported => -3,
            OperationResult::TooManySubentries => -4,
            OperationResult::ExceededWorkLimit => -5,
            OperationResult::TooManySponsoring => -6,
        }
    }
}
