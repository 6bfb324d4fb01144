//! What transactions answer.

ghost use Rattle.std.specs.Prelude.{◌≡◌};
ghost use Rattle.op_types.specs.InnerOutcome.{inner_outcome};
ghost use Rattle.op_types.specs.Codes.{inner_code, inner_values, outcome_code, outcome_values};

use crate::coded::Coded;
use crate::operation_result::OperationResult;
use item_list::ItemList;
use ledger_types::Hash;

/// How the inner transaction of a fee bump ended, with the results of its operations where its checks passed (the union
/// `result` of InnerTransactionResult in Stellar-transaction.x).
pub enum InnerTransactionOutcome {
    /// txSUCCESS, 0: the operations succeeded.
    Success(ItemList<OperationResult>),
    /// txFAILED, -1: an operation failed, and only the fee and the sequence number are used up.
    Failed(ItemList<OperationResult>),
    /// txTOO_EARLY, -2: the ledger closes before the time bounds.
    TooEarly,
    /// txTOO_LATE, -3: the ledger closes after the time bounds.
    TooLate,
    /// txMISSING_OPERATION, -4: there is no operation.
    MissingOperation,
    /// txBAD_SEQ, -5: the sequence number isn't the next one.
    BadSeq,
    /// txBAD_AUTH, -6: the signatures don't reach the source's low threshold.
    BadAuth,
    /// txINSUFFICIENT_BALANCE, -7: the fee has left the source below its reserve.
    InsufficientBalance,
    /// txNO_ACCOUNT, -8: the source has no account.
    NoAccount,
    /// txINSUFFICIENT_FEE, -9: the bid is below the base fee.
    InsufficientFee,
    /// txBAD_AUTH_EXTRA, -10: a signature was used by no check.
    BadAuthExtra,
    /// txINTERNAL_ERROR, -11.
    InternalError,
    /// txNOT_SUPPORTED, -12: this kind of transaction isn't supported.
    NotSupported,
    /// txFEE_BUMP_INNER_FAILED, -13: the inner transaction failed.
    FeeBumpInnerFailed,
    /// txBAD_SPONSORSHIP, -14: a sponsorship is still open after the last operation.
    BadSponsorship,
    /// txBAD_MIN_SEQ_AGE_OR_GAP, -15: the source's sequence number was set too short a time ago.
    BadMinSeqAgeOrGap,
    /// txMALFORMED, -16: the preconditions are invalid.
    Malformed,
    /// txFEE_BUMP_INNER_SUCCESS, 1: the inner transaction succeeded.
    FeeBumpInnerSuccess,
}

impl Drop for InnerTransactionOutcome {
    fn drop(self) {
        match self {
            InnerTransactionOutcome::Success(results) => drop(results),
            InnerTransactionOutcome::Failed(results) => drop(results),
            InnerTransactionOutcome::TooEarly
            | InnerTransactionOutcome::TooLate
            | InnerTransactionOutcome::MissingOperation
            | InnerTransactionOutcome::BadSeq
            | InnerTransactionOutcome::BadAuth
            | InnerTransactionOutcome::InsufficientBalance
            | InnerTransactionOutcome::NoAccount
            | InnerTransactionOutcome::InsufficientFee
            | InnerTransactionOutcome::BadAuthExtra
            | InnerTransactionOutcome::InternalError
            | InnerTransactionOutcome::NotSupported
            | InnerTransactionOutcome::FeeBumpInnerFailed
            | InnerTransactionOutcome::BadSponsorship
            | InnerTransactionOutcome::BadMinSeqAgeOrGap
            | InnerTransactionOutcome::Malformed
            | InnerTransactionOutcome::FeeBumpInnerSuccess => {}
        }
    }
}

impl Coded for InnerTransactionOutcome {
    ghost values = { inner_values };

    ghost number = { inner_code };

    fn from_code(code: i32) -> Option<InnerTransactionOutcome> {
        match code {
            -2 => Some(InnerTransactionOutcome::TooEarly),
            -3 => Some(InnerTransactionOutcome::TooLate),
            -4 => Some(InnerTransactionOutcome::MissingOperation),
            -5 => Some(InnerTransactionOutcome::BadSeq),
            -6 => Some(InnerTransactionOutcome::BadAuth),
            -7 => Some(InnerTransactionOutcome::InsufficientBalance),
            -8 => Some(InnerTransactionOutcome::NoAccount),
            -9 => Some(InnerTransactionOutcome::InsufficientFee),
            -10 => Some(InnerTransactionOutcome::BadAuthExtra),
            -11 => Some(InnerTransactionOutcome::InternalError),
            -12 => Some(InnerTransactionOutcome::NotSupported),
            -13 => Some(InnerTransactionOutcome::FeeBumpInnerFailed),
            -14 => Some(InnerTransactionOutcome::BadSponsorship),
            -15 => Some(InnerTransactionOutcome::BadMinSeqAgeOrGap),
            -16 => Some(InnerTransactionOutcome::Malformed),
            1 => Some(InnerTransactionOutcome::FeeBumpInnerSuccess),
            _ => None,
        }
    }

    fn code(&self) -> i32 {
        match self {
            InnerTransactionOutcome::Success(_) => 0,
            InnerTransactionOutcome::Failed(_) => -1,
            InnerTransactionOutcome::TooEarly => -2,
            InnerTransactionOutcome::TooLate => -3,
            InnerTransactionOutcome::MissingOperation => -4,
            InnerTransactionOutcome::BadSeq => -5,
            InnerTransactionOutcome::BadAuth => -6,
            InnerTransactionOutcome::InsufficientBalance => -7,
            InnerTransactionOutcome::NoAccount => -8,
            InnerTransactionOutcome::InsufficientFee => -9,
            InnerTransactionOutcome::BadAuthExtra => -10,
            InnerTransactionOutcome::InternalError => -11,
            InnerTransactionOutcome::NotSupported => -12,
            InnerTransactionOutcome::FeeBumpInnerFailed => -13,
            InnerTransactionOutcome::BadSponsorship => -14,
            InnerTransactionOutcome::BadMinSeqAgeOrGap => -15,
            InnerTransactionOutcome::Malformed => -16,
            InnerTransactionOutcome::FeeBumpInnerSuccess => 1,
        }
    }
}

/// What the inner transaction of a fee bump answers (InnerTransactionResult in Stellar-transaction.x).
#[derive(Drop)]
pub struct InnerTransactionResult {
    /// In stroops. The fee bump pays, so it is 0.
    pub fee_charged: i64,
    pub outcome: InnerTransactionOutcome,
}

/// The result of the inner transaction of a fee bump beside its hash (InnerTransactionResultPair in
/// Stellar-transaction.x).
#[derive(Drop)]
pub struct InnerTransactionResultPair {
    pub transaction_hash: Hash,
    pub result: InnerTransactionResult,
}

/// How a transaction ended, with the results of its operations where its checks passed, or of its inner transaction
/// (the union `result` of TransactionResult in Stellar-transaction.x).
pub enum TransactionOutcome {
    /// txSUCCESS, 0: the operations succeeded.
    Success(ItemList<OperationResult>),
    /// txFAILED, -1: an operation failed, and only the fee and the sequence number are used up.
    Failed(ItemList<OperationResult>),
    /// txTOO_EARLY, -2: the ledger closes before the time bounds.
    TooEarly,
    /// txTOO_LATE, -3: the ledger closes after the time bounds.
    TooLate,
    /// txMISSING_OPERATION, -4: there is no operation.
    MissingOperation,
    /// txBAD_SEQ, -5: the sequence number isn't the next one.
    BadSeq,
    /// txBAD_AUTH, -6: the signatures don't reach the source's low threshold.
    BadAuth,
    /// txINSUFFICIENT_BALANCE, -7: the fee has left the source below its reserve.
    InsufficientBalance,
    /// txNO_ACCOUNT, -8: the source has no account.
    NoAccount,
    /// txINSUFFICIENT_FEE, -9: the bid is below the base fee.
    InsufficientFee,
    /// txBAD_AUTH_EXTRA, -10: a signature was used by no check.
    BadAuthExtra,
    /// txINTERNAL_ERROR, -11.
    InternalError,
    /// txNOT_SUPPORTED, -12: this kind of transaction isn't supported.
    NotSupported,
    /// txFEE_BUMP_INNER_FAILED, -13: the inner transaction failed.
    FeeBumpInnerFailed(InnerTransactionResultPair),
    /// txBAD_SPONSORSHIP, -14: a sponsorship is still open after the last operation.
    BadSponsorship,
    /// txBAD_MIN_SEQ_AGE_OR_GAP, -15: the source's sequence number was set too short a time ago.
    BadMinSeqAgeOrGap,
    /// txMALFORMED, -16: the preconditions are invalid.
    Malformed,
    /// txFEE_BUMP_INNER_SUCCESS, 1: the inner transaction succeeded.
    FeeBumpInnerSuccess(InnerTransactionResultPair),
}

impl Drop for TransactionOutcome {
    fn drop(self) {
        match self {
            TransactionOutcome::Success(results) => drop(results),
            TransactionOutcome::Failed(results) => drop(results),
            TransactionOutcome::FeeBumpInnerFailed(pair) => drop(pair),
            TransactionOutcome::FeeBumpInnerSuccess(pair) => drop(pair),
            TransactionOutcome::TooEarly
            | TransactionOutcome::TooLate
            | TransactionOutcome::MissingOperation
            | TransactionOutcome::BadSeq
            | TransactionOutcome::BadAuth
            | TransactionOutcome::InsufficientBalance
            | TransactionOutcome::NoAccount
            | TransactionOutcome::InsufficientFee
            | TransactionOutcome::BadAuthExtra
            | TransactionOutcome::InternalError
            | TransactionOutcome::NotSupported
            | TransactionOutcome::BadSponsorship
            | TransactionOutcome::BadMinSeqAgeOrGap
            | TransactionOutcome::Malformed => {}
        }
    }
}

impl TransactionOutcome {
    /// The same end, of an inner transaction.
    pub fn into_inner(self) -> InnerTransactionOutcome
        ensures { result ≡ inner_outcome self }
    {
        match self {
            TransactionOutcome::Success(results) => InnerTransactionOutcome::Success(results),
            TransactionOutcome::Failed(results) => InnerTransactionOutcome::Failed(results),
            TransactionOutcome::TooEarly => InnerTransactionOutcome::TooEarly,
            TransactionOutcome::TooLate => InnerTransactionOutcome::TooLate,
            TransactionOutcome::MissingOperation => InnerTransactionOutcome::MissingOperation,
            TransactionOutcome::BadSeq => InnerTransactionOutcome::BadSeq,
            TransactionOutcome::BadAuth => InnerTransactionOutcome::BadAuth,
            TransactionOutcome::InsufficientBalance => InnerTransactionOutcome::InsufficientBalance,
            TransactionOutcome::NoAccount => InnerTransactionOutcome::NoAccount,
            TransactionOutcome::InsufficientFee => InnerTransactionOutcome::InsufficientFee,
            TransactionOutcome::BadAuthExtra => InnerTransactionOutcome::BadAuthExtra,
            TransactionOutcome::InternalError => InnerTransactionOutcome::InternalError,
            TransactionOutcome::NotSupported => InnerTransactionOutcome::NotSupported,
            TransactionOutcome::FeeBumpInnerFailed(_) =>
                InnerTransactionOutcome::FeeBumpInnerFailed,
            TransactionOutcome::BadSponsorship => InnerTransactionOutcome::BadSponsorship,
            TransactionOutcome::BadMinSeqAgeOrGap => InnerTransactionOutcome::BadMinSeqAgeOrGap,
            TransactionOutcome::Malformed => InnerTransactionOutcome::Malformed,
            TransactionOutcome::FeeBumpInnerSuccess(_) =>
                InnerTransactionOutcome::FeeBumpInnerSuccess,
        }
    }
}

impl Coded for TransactionOutcome {
    ghost values = { outcome_values };

    ghost number = { outcome_code };

    fn from_code(code: i32) -> Option<TransactionOutcome> {
        match code {
            -2 => Some(TransactionOutcome::TooEarly),
            -3 => Some(TransactionOutcome::TooLate),
            -4 => Some(TransactionOutcome::MissingOperation),
            -5 => Some(TransactionOutcome::BadSeq),
            -6 => Some(TransactionOutcome::BadAuth),
            -7 => Some(TransactionOutcome::InsufficientBalance),
            -8 => Some(TransactionOutcome::NoAccount),
            -9 => Some(TransactionOutcome::InsufficientFee),
            -10 => Some(TransactionOutcome::BadAuthExtra),
            -11 => Some(TransactionOutcome::InternalError),
            -12 => Some(TransactionOutcome::NotSupported),
            -14 => Some(TransactionOutcome::BadSponsorship),
            -15 => Some(TransactionOutcome::BadMinSeqAgeOrGap),
            -16 => Some(TransactionOutcome::Malformed),
            _ => None,
        }
    }

    fn code(&self) -> i32 {
        match self {
            TransactionOutcome::Success(_) => 0,
            TransactionOutcome::Failed(_) => -1,
            TransactionOutcome::TooEarly => -2,
            TransactionOutcome::TooLate => -3,
            TransactionOutcome::MissingOperation => -4,
            TransactionOutcome::BadSeq => -5,
            TransactionOutcome::BadAuth => -6,
            TransactionOutcome::InsufficientBalance => -7,
            TransactionOutcome::NoAccount => -8,
            TransactionOutcome::InsufficientFee => -9,
            TransactionOutcome::BadAuthExtra => -10,
            TransactionOutcome::InternalError => -11,
            TransactionOutcome::NotSupported => -12,
            TransactionOutcome::FeeBumpInnerFailed(_) => -13,
            TransactionOutcome::BadSponsorship => -14,
            TransactionOutcome::BadMinSeqAgeOrGap => -15,
            TransactionOutcome::Malformed => -16,
            TransactionOutcome::FeeBumpInnerSuccess(_) => 1,
        }
    }
}

/// What a transaction answers (TransactionResult in Stellar-transaction.x).
#[derive(Drop)]
pub struct TransactionResult {
    /// In stroops.
    pub fee_charged: i64,
    pub outcome: TransactionOutcome,
}

/// A transaction's result beside its hash (TransactionResultPair in Stellar-ledger.x).
#[derive(Drop)]
pub struct TransactionResultPair {
    pub transaction_hash: Hash,
    pub result: TransactionResult,
}

/// The results of a set, in the order in which its transactions were applied (TransactionResultSet in
/// Stellar-ledger.x).
#[derive(Drop)]
pub struct TransactionResultSet {
    pub results: ItemList<TransactionResultPair>,
}
