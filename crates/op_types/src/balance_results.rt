//! What operations on claimable balances answer.

ghost use Rattle.op_types.specs.Codes.{create_claimable_balance_code, create_claimable_balance_values};
ghost use Rattle.op_types.specs.Codes.{claim_claimable_balance_code, claim_claimable_balance_values};
ghost use Rattle.op_types.specs.Codes.{clawback_claimable_balance_code, clawback_claimable_balance_values};

use crate::coded::Coded;
use ledger_types::ClaimableBalanceId;

/// What CREATE_CLAIMABLE_BALANCE answers (CreateClaimableBalanceResult in Stellar-transaction.x).
#[derive(Clone, Copy)]
pub enum CreateClaimableBalanceResult {
    /// CREATE_CLAIMABLE_BALANCE_SUCCESS, 0.
    Success(ClaimableBalanceId),
    /// CREATE_CLAIMABLE_BALANCE_MALFORMED, -1.
    Malformed,
    /// CREATE_CLAIMABLE_BALANCE_LOW_RESERVE, -2.
    LowReserve,
    /// CREATE_CLAIMABLE_BALANCE_NO_TRUST, -3.
    NoTrust,
    /// CREATE_CLAIMABLE_BALANCE_NOT_AUTHORIZED, -4.
    NotAuthorized,
    /// CREATE_CLAIMABLE_BALANCE_UNDERFUNDED, -5.
    Underfunded,
}

impl Coded for CreateClaimableBalanceResult {
    ghost values = { create_claimable_balance_values };

    ghost number = { create_claimable_balance_code };

    fn from_code(code: i32) -> Option<CreateClaimableBalanceResult> {
        match code {
            -1 => Some(CreateClaimableBalanceResult::Malformed),
            -2 => Some(CreateClaimableBalanceResult::LowReserve),
            -3 => Some(CreateClaimableBalanceResult::NoTrust),
            -4 => Some(CreateClaimableBalanceResult::NotAuthorized),
            -5 => Some(CreateClaimableBalanceResult::Underfunded),
            _ => None,
        }
    }

    fn code(&self) -> i32 {
        match self {
            CreateClaimableBalanceResult::Success(_) => 0,
            CreateClaimableBalanceResult::Malformed => -1,
            CreateClaimableBalanceResult::LowReserve => -2,
            CreateClaimableBalanceResult::NoTrust => -3,
            CreateClaimableBalanceResult::NotAuthorized => -4,
            CreateClaimableBalanceResult::Underfunded => -5,
        }
    }
}

/// What CLAIM_CLAIMABLE_BALANCE answers (ClaimClaimableBalanceResult in Stellar-transaction.x).
#[derive(Clone, Copy)]
pub enum ClaimClaimableBalanceResult {
    /// CLAIM_CLAIMABLE_BALANCE_SUCCESS, 0.
    Success,
    /// CLAIM_CLAIMABLE_BALANCE_DOES_NOT_EXIST, -1.
    DoesNotExist,
    /// CLAIM_CLAIMABLE_BALANCE_CANNOT_CLAIM, -2.
    CannotClaim,
    /// CLAIM_CLAIMABLE_BALANCE_LINE_FULL, -3.
    LineFull,
    /// CLAIM_CLAIMABLE_BALANCE_NO_TRUST, -4.
    NoTrust,
    /// CLAIM_CLAIMABLE_BALANCE_NOT_AUTHORIZED, -5.
    NotAuthorized,
}

impl Coded for ClaimClaimableBalanceResult {
    ghost values = { claim_claimable_balance_values };

    ghost number = { claim_claimable_balance_code };

    fn from_code(code: i32) -> Option<ClaimClaimableBalanceResult> {
        match code {
            0 => Some(ClaimClaimableBalanceResult::Success),
            -1 => Some(ClaimClaimableBalanceResult::DoesNotExist),
            -2 => Some(ClaimClaimableBalanceResult::CannotClaim),
            -3 => Some(ClaimClaimableBalanceResult::LineFull),
            -4 => Some(ClaimClaimableBalanceResult::NoTrust),
            -5 => Some(ClaimClaimableBalanceResult::NotAuthorized),
            _ => None,
        }
    }

    fn code(&self) -> i32 {
        match self {
            ClaimClaimableBalanceResult::Success => 0,
            ClaimClaimableBalanceResult::DoesNotExist => -1,
            ClaimClaimableBalanceResult::CannotClaim => -2,
            ClaimClaimableBalanceResult::LineFull => -3,
            ClaimClaimableBalanceResult::NoTrust => -4,
            ClaimClaimableBalanceResult::NotAuthorized => -5,
        }
    }
}

/// What CLAWBACK_CLAIMABLE_BALANCE answers (ClawbackClaimableBalanceResult in Stellar-transaction.x).
#[derive(Clone, Copy)]
pub enum ClawbackClaimableBalanceResult {
    /// CLAWBACK_CLAIMABLE_BALANCE_SUCCESS, 0.
    Success,
    /// CLAWBACK_CLAIMABLE_BALANCE_DOES_NOT_EXIST, -1.
    DoesNotExist,
    /// CLAWBACK_CLAIMABLE_BALANCE_NOT_ISSUER, -2.
    NotIssuer,
    /// CLAWBACK_CLAIMABLE_BALANCE_NOT_CLAWBACK_ENABLED, -3.
    NotClawbackEnabled,
}

impl Coded for ClawbackClaimableBalanceResult {
    ghost values = { clawback_claimable_balance_values };

    ghost number = { clawback_claimable_balance_code };

    fn from_code(code: i32) -> Option<ClawbackClaimableBalanceResult> {
        match code {
            0 => Some(ClawbackClaimableBalanceResult::Success),
            -1 => Some(ClawbackClaimableBalanceResult::DoesNotExist),
            -2 => Some(ClawbackClaimableBalanceResult::NotIssuer),
            -3 => Some(ClawbackClaimableBalanceResult::NotClawbackEnabled),
            _ => None,
        }
    }

    fn code(&self) -> i32 {
        match self {
            ClawbackClaimableBalanceResult::Success => 0,
            ClawbackClaimableBalanceResult::DoesNotExist => -1,
            ClawbackClaimableBalanceResult::NotIssuer => -2,
            ClawbackClaimableBalanceResult::NotClawbackEnabled => -3,
        }
    }
}
