//! What operations on the source's own account answer.

ghost use Rattle.op_types.specs.Codes.{set_options_code, set_options_values, account_merge_code, account_merge_values};
ghost use Rattle.op_types.specs.Codes.{inflation_code, inflation_values, manage_data_code, manage_data_values};
ghost use Rattle.op_types.specs.Codes.{bump_sequence_code, bump_sequence_values};

use crate::coded::Coded;
use item_list::ItemList;
use ledger_types::AccountId;

/// What an account got of inflation (InflationPayout in Stellar-transaction.x). Protocol 18 pays none.
#[derive(Clone, Copy)]
pub struct InflationPayout {
    pub destination: AccountId,
    pub amount: i64,
}

/// What SET_OPTIONS answers (SetOptionsResult in Stellar-transaction.x).
#[derive(Clone, Copy)]
pub enum SetOptionsResult {
    /// SET_OPTIONS_SUCCESS, 0.
    Success,
    /// SET_OPTIONS_LOW_RESERVE, -1.
    LowReserve,
    /// SET_OPTIONS_TOO_MANY_SIGNERS, -2.
    TooManySigners,
    /// SET_OPTIONS_BAD_FLAGS, -3.
    BadFlags,
    /// SET_OPTIONS_INVALID_INFLATION, -4.
    InvalidInflation,
    /// SET_OPTIONS_CANT_CHANGE, -5.
    CantChange,
    /// SET_OPTIONS_UNKNOWN_FLAG, -6.
    UnknownFlag,
    /// SET_OPTIONS_THRESHOLD_OUT_OF_RANGE, -7.
    ThresholdOutOfRange,
    /// SET_OPTIONS_BAD_SIGNER, -8.
    BadSigner,
    /// SET_OPTIONS_INVALID_HOME_DOMAIN, -9.
    InvalidHomeDomain,
    /// SET_OPTIONS_AUTH_REVOCABLE_REQUIRED, -10.
    AuthRevocableRequired,
}

impl Coded for SetOptionsResult {
    ghost values = { set_options_values };

    ghost number = { set_options_code };

    fn from_code(code: i32) -> Option<SetOptionsResult> {
        match code {
            0 => Some(SetOptionsResult::Success),
            -1 => Some(SetOptionsResult::LowReserve),
            -2 => Some(SetOptionsResult::TooManySigners),
            -3 => Some(SetOptionsResult::BadFlags),
            -4 => Some(SetOptionsResult::InvalidInflation),
            -5 => Some(SetOptionsResult::CantChange),
            -6 => Some(SetOptionsResult::UnknownFlag),
            -7 => Some(SetOptionsResult::ThresholdOutOfRange),
            -8 => Some(SetOptionsResult::BadSigner),
            -9 => Some(SetOptionsResult::InvalidHomeDomain),
            -10 => Some(SetOptionsResult::AuthRevocableRequired),
            _ => None,
        }
    }

    fn code(&self) -> i32 {
        match self {
            SetOptionsResult::Success => 0,
            SetOptionsResult::LowReserve => -1,
            SetOptionsResult::TooManySigners => -2,
            SetOptionsResult::BadFlags => -3,
            SetOptionsResult::InvalidInflation => -4,
            SetOptionsResult::CantChange => -5,
            SetOptionsResult::UnknownFlag => -6,
            SetOptionsResult::ThresholdOutOfRange => -7,
            SetOptionsResult::BadSigner => -8,
            SetOptionsResult::InvalidHomeDomain => -9,
            SetOptionsResult::AuthRevocableRequired => -10,
        }
    }
}

/// What ACCOUNT_MERGE answers (AccountMergeResult in Stellar-transaction.x).
#[derive(Clone, Copy)]
pub enum AccountMergeResult {
    /// ACCOUNT_MERGE_SUCCESS, 0.
    Success(i64),
    /// ACCOUNT_MERGE_MALFORMED, -1.
    Malformed,
    /// ACCOUNT_MERGE_NO_ACCOUNT, -2.
    NoAccount,
    /// ACCOUNT_MERGE_IMMUTABLE_SET, -3.
    ImmutableSet,
    /// ACCOUNT_MERGE_HAS_SUB_ENTRIES, -4.
    HasSubEntries,
    /// ACCOUNT_MERGE_SEQNUM_TOO_FAR, -5.
    SeqnumTooFar,
    /// ACCOUNT_MERGE_DEST_FULL, -6.
    DestFull,
    /// ACCOUNT_MERGE_IS_SPONSOR, -7.
    IsSponsor,
}

impl Coded for AccountMergeResult {
    ghost values = { account_merge_values };

    ghost number = { account_merge_code };

    fn from_code(code: i32) -> Option<AccountMergeResult> {
        match code {
            -1 => Some(AccountMergeResult::Malformed),
            -2 => Some(AccountMergeResult::NoAccount),
            -3 => Some(AccountMergeResult::ImmutableSet),
            -4 => Some(AccountMergeResult::HasSubEntries),
            -5 => Some(AccountMergeResult::SeqnumTooFar),
            -6 => Some(AccountMergeResult::DestFull),
            -7 => Some(AccountMergeResult::IsSponsor),
            _ => None,
        }
    }

    fn code(&self) -> i32 {
        match self {
            AccountMergeResult::Success(_) => 0,
            AccountMergeResult::Malformed => -1,
            AccountMergeResult::NoAccount => -2,
            AccountMergeResult::ImmutableSet => -3,
            AccountMergeResult::HasSubEntries => -4,
            AccountMergeResult::SeqnumTooFar => -5,
            AccountMergeResult::DestFull => -6,
            AccountMergeResult::IsSponsor => -7,
        }
    }
}

/// What INFLATION answers (InflationResult in Stellar-transaction.x).
#[derive(Drop)]
pub enum InflationResult {
    /// INFLATION_SUCCESS, 0.
    Success(ItemList<InflationPayout>),
    /// INFLATION_NOT_TIME, -1.
    NotTime,
}

impl Coded for InflationResult {
    ghost values = { inflation_values };

    ghost number = { inflation_code };

    fn from_code(code: i32) -> Option<InflationResult> {
        match code {
            -1 => Some(InflationResult::NotTime),
            _ => None,
        }
    }

    fn code(&self) -> i32 {
        match self {
            InflationResult::Success(_) => 0,
            InflationResult::NotTime => -1,
        }
    }
}

/// What MANAGE_DATA answers (ManageDataResult in Stellar-transaction.x).
#[derive(Clone, Copy)]
pub enum ManageDataResult {
    /// MANAGE_DATA_SUCCESS, 0.
    Success,
    /// MANAGE_DATA_NOT_SUPPORTED_YET, -1.
    NotSupportedYet,
    /// MANAGE_DATA_NAME_NOT_FOUND, -2.
    NameNotFound,
    /// MANAGE_DATA_LOW_RESERVE, -3.
    LowReserve,
    /// MANAGE_DATA_INVALID_NAME, -4.
    InvalidName,
}

impl Coded for ManageDataResult {
    ghost values = { manage_data_values };

    ghost number = { manage_data_code };

    fn from_code(code: i32) -> Option<ManageDataResult> {
        match code {
            0 => Some(ManageDataResult::Success),
            -1 => Some(ManageDataResult::NotSupportedYet),
            -2 => Some(ManageDataResult::NameNotFound),
            -3 => Some(ManageDataResult::LowReserve),
            -4 => Some(ManageDataResult::InvalidName),
            _ => None,
        }
    }

    fn code(&self) -> i32 {
        match self {
            ManageDataResult::Success => 0,
            ManageDataResult::NotSupportedYet => -1,
            ManageDataResult::NameNotFound => -2,
            ManageDataResult::LowReserve => -3,
            ManageDataResult::InvalidName => -4,
        }
    }
}

/// What BUMP_SEQUENCE answers (BumpSequenceResult in Stellar-transaction.x).
#[derive(Clone, Copy)]
pub enum BumpSequenceResult {
    /// BUMP_SEQUENCE_SUCCESS, 0.
    Success,
    /// BUMP_SEQUENCE_BAD_SEQ, -1.
    BadSeq,
}

impl Coded for BumpSequenceResult {
    ghost values = { bump_sequence_values };

    ghost number = { bump_sequence_code };

    fn from_code(code: i32) -> Option<BumpSequenceResult> {
        match code {
            0 => Some(BumpSequenceResult::Success),
            -1 => Some(BumpSequenceResult::BadSeq),
            _ => None,
        }
    }

    fn code(&self) -> i32 {
        match self {
            BumpSequenceResult::Success => 0,
            BumpSequenceResult::BadSeq => -1,
        }
    }
}
