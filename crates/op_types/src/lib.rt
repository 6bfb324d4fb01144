//! Operations, transactions and their results, with the names of the protocol's XDR (protocols 18 and 19). A field has
//! its name in snake case; the discriminant of a union is the variant of an enum.
#![tactic(auto)]

mod account_ops;
mod account_results;
mod balance_ops;
mod balance_results;
mod coded;
mod offer_ops;
mod offer_results;
mod operation;
mod operation_result;
pub mod operation_type;
mod payment_ops;
mod payment_results;
mod pool_ops;
mod pool_results;
mod preconditions;
mod sponsor_ops;
mod sponsor_results;
mod transaction;
mod transaction_result;
mod trust_ops;
mod trust_results;
mod vouch;

pub use account_ops::{
    AccountMergeOp, BumpSequenceOp, CreateAccountOp, ManageDataOp, SetOptionsOp,
};
pub use account_results::{
    AccountMergeResult, BumpSequenceResult, InflationPayout, InflationResult, ManageDataResult,
    SetOptionsResult,
};
pub use balance_ops::{
    ClaimClaimableBalanceOp, ClawbackClaimableBalanceOp, CreateClaimableBalanceOp,
};
pub use balance_results::{
    ClaimClaimableBalanceResult, ClawbackClaimableBalanceResult, CreateClaimableBalanceResult,
};
pub use coded::Coded;
pub use offer_ops::{CreatePassiveSellOfferOp, ManageBuyOfferOp, ManageSellOfferOp};
pub use offer_results::{ManageOfferEffect, ManageOfferResult, ManageOfferSuccess};
pub use operation::{Operation, OperationBody};
pub use operation_result::{OperationResult, OperationResultTr};
pub use payment_ops::{PathPaymentStrictReceiveOp, PathPaymentStrictSendOp, PaymentOp};
pub use payment_results::{
    CreateAccountResult, PathPaymentStrictReceiveResult, PathPaymentStrictSendResult,
    PathPaymentSuccess, PaymentResult, SimplePaymentResult,
};
pub use pool_ops::{LiquidityPoolDepositOp, LiquidityPoolWithdrawOp};
pub use pool_results::{LiquidityPoolDepositResult, LiquidityPoolWithdrawResult};
pub use preconditions::{LedgerBounds, Preconditions, PreconditionsV2, TimeBounds};
pub use sponsor_ops::{BeginSponsoringFutureReservesOp, RevokeSponsorshipOp};
pub use sponsor_results::{
    BeginSponsoringFutureReservesResult, EndSponsoringFutureReservesResult, RevokeSponsorshipResult,
};
pub use transaction::{
    DecoratedSignature, FeeBumpTransaction, FeeBumpTransactionEnvelope, Memo, Transaction,
    TransactionEnvelope, TransactionSet, TransactionV0, TransactionV0Envelope,
    TransactionV1Envelope,
};
pub use transaction_result::{
    InnerTransactionOutcome, InnerTransactionResult, InnerTransactionResultPair,
    TransactionOutcome, TransactionResult, TransactionResultPair, TransactionResultSet,
};
pub use trust_ops::{AllowTrustOp, AssetCode, ChangeTrustOp, ClawbackOp, SetTrustLineFlagsOp};
pub use trust_results::{
    AllowTrustResult, ChangeTrustResult, ClawbackResult, SetTrustLineFlagsResult,
};
pub use vouch::Vouch;
