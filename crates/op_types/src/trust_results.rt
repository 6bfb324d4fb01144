//! What operations on trust lines answer.

ghost use Rattle.op_types.specs.Codes.{change_trust_code, change_trust_values, allow_trust_code, allow_trust_values};
ghost use Rattle.op_types.specs.Codes.{clawback_code, clawback_values, set_trust_line_flags_code};
ghost use Rattle.op_types.specs.Codes.{set_trust_line_flags_values};

use crate::coded::Coded;

/// What CHANGE_TRUST answers (ChangeTrustResult in Stellar-transaction.x).
#[derive(Clone, Copy)]
pub enum ChangeTrustResult {
    /// CHANGE_TRUST_SUCCESS, 0.
    Success,
    /// CHANGE_TRUST_MALFORMED, -1.
    Malformed,
    /// CHANGE_TRUST_NO_ISSUER, -2.
    NoIssuer,
    /// CHANGE_TRUST_INVALID_LIMIT, -3.
    InvalidLimit,
    /// CHANGE_TRUST_LOW_RESERVE, -4.
    LowReserve,
    /// CHANGE_TRUST_SELF_NOT_ALLOWED, -5.
    SelfNotAllowed,
    /// CHANGE_TRUST_TRUST_LINE_MISSING, -6.
    TrustLineMissing,
    /// CHANGE_TRUST_CANNOT_DELETE, -7.
    CannotDelete,
    /// CHANGE_TRUST_NOT_AUTH_MAINTAIN_LIABILITIES, -8.
    NotAuthMaintainLiabilities,
}

impl Coded for ChangeTrustResult {
    ghost values = { change_trust_values };

    ghost number = { change_trust_code };

    fn from_code(code: i32) -> Option<ChangeTrustResult> {
        match code {
            0 => Some(ChangeTrustResult::Success),
            -1 => Some(ChangeTrustResult::Malformed),
            -2 => Some(ChangeTrustResult::NoIssuer),
            -3 => Some(ChangeTrustResult::InvalidLimit),
            -4 => Some(ChangeTrustResult::LowReserve),
            -5 => Some(ChangeTrustResult::SelfNotAllowed),
            -6 => Some(ChangeTrustResult::TrustLineMissing),
            -7 => Some(ChangeTrustResult::CannotDelete),
            -8 => Some(ChangeTrustResult::NotAuthMaintainLiabilities),
            _ => None,
        }
    }

    fn code(&self) -> i32 {
        match self {
            ChangeTrustResult::Success => 0,
            ChangeTrustResult::Malformed => -1,
            ChangeTrustResult::NoIssuer => -2,
            ChangeTrustResult::InvalidLimit => -3,
            ChangeTrustResult::LowReserve => -4,
            ChangeTrustResult::SelfNotAllowed => -5,
            ChangeTrustResult::TrustLineMissing => -6,
            ChangeTrustResult::CannotDelete => -7,
            ChangeTrustResult::NotAuthMaintainLiabilities => -8,
        }
    }
}

/// What ALLOW_TRUST answers (AllowTrustResult in Stellar-transaction.x).
#[derive(Clone, Copy)]
pub enum AllowTrustResult {
    /// ALLOW_TRUST_SUCCESS, 0.
    Success,
    /// ALLOW_TRUST_MALFORMED, -1.
    Malformed,
    /// ALLOW_TRUST_NO_TRUST_LINE, -2.
    NoTrustLine,
    /// ALLOW_TRUST_TRUST_NOT_REQUIRED, -3.
    TrustNotRequired,
    /// ALLOW_TRUST_CANT_REVOKE, -4.
    CantRevoke,
    /// ALLOW_TRUST_SELF_NOT_ALLOWED, -5.
    SelfNotAllowed,
    /// ALLOW_TRUST_LOW_RESERVE, -6.
    LowReserve,
}

impl Coded for AllowTrustResult {
    ghost values = { allow_trust_values };

    ghost number = { allow_trust_code };

    fn from_code(code: i32) -> Option<AllowTrustResult> {
        match code {
            0 => Some(AllowTrustResult::Success),
            -1 => Some(AllowTrustResult::Malformed),
            -2 => Some(AllowTrustResult::NoTrustLine),
            -3 => Some(AllowTrustResult::TrustNotRequired),
            -4 => Some(AllowTrustResult::CantRevoke),
            -5 => Some(AllowTrustResult::SelfNotAllowed),
            -6 => Some(AllowTrustResult::LowReserve),
            _ => None,
        }
    }

    fn code(&self) -> i32 {
        match self {
            AllowTrustResult::Success => 0,
            AllowTrustResult::Malformed => -1,
            AllowTrustResult::NoTrustLine => -2,
            AllowTrustResult::TrustNotRequired => -3,
            AllowTrustResult::CantRevoke => -4,
            AllowTrustResult::SelfNotAllowed => -5,
            AllowTrustResult::LowReserve => -6,
        }
    }
}

/// What CLAWBACK answers (ClawbackResult in Stellar-transaction.x).
#[derive(Clone, Copy)]
pub enum ClawbackResult {
    /// CLAWBACK_SUCCESS, 0.
    Success,
    /// CLAWBACK_MALFORMED, -1.
    Malformed,
    /// CLAWBACK_NOT_CLAWBACK_ENABLED, -2.
    NotClawbackEnabled,
    /// CLAWBACK_NO_TRUST, -3.
    NoTrust,
    /// CLAWBACK_UNDERFUNDED, -4.
    Underfunded,
}

impl Coded for ClawbackResult {
    ghost values = { clawback_values };

    ghost number = { clawback_code };

    fn from_code(code: i32) -> Option<ClawbackResult> {
        match code {
            0 => Some(ClawbackResult::Success),
            -1 => Some(ClawbackResult::Malformed),
            -2 => Some(ClawbackResult::NotClawbackEnabled),
            -3 => Some(ClawbackResult::NoTrust),
            -4 => Some(ClawbackResult::Underfunded),
            _ => None,
        }
    }

    fn code(&self) -> i32 {
        match self {
            ClawbackResult::Success => 0,
            ClawbackResult::Malformed => -1,
            ClawbackResult::NotClawbackEnabled => -2,
            ClawbackResult::NoTrust => -3,
            ClawbackResult::Underfunded => -4,
        }
    }
}

/// What SET_TRUST_LINE_FLAGS answers (SetTrustLineFlagsResult in Stellar-transaction.x).
#[derive(Clone, Copy)]
pub enum SetTrustLineFlagsResult {
    /// SET_TRUST_LINE_FLAGS_SUCCESS, 0.
    Success,
    /// SET_TRUST_LINE_FLAGS_MALFORMED, -1.
    Malformed,
    /// SET_TRUST_LINE_FLAGS_NO_TRUST_LINE, -2.
    NoTrustLine,
    /// SET_TRUST_LINE_FLAGS_CANT_REVOKE, -3.
    CantRevoke,
    /// SET_TRUST_LINE_FLAGS_INVALID_STATE, -4.
    InvalidState,
    /// SET_TRUST_LINE_FLAGS_LOW_RESERVE, -5.
    LowReserve,
}

impl Coded for SetTrustLineFlagsResult {
    ghost values = { set_trust_line_flags_values };

    ghost number = { set_trust_line_flags_code };

    fn from_code(code: i32) -> Option<SetTrustLineFlagsResult> {
        match code {
            0 => Some(SetTrustLineFlagsResult::Success),
            -1 => Some(SetTrustLineFlagsResult::Malformed),
            -2 => Some(SetTrustLineFlagsResult::NoTrustLine),
            -3 => Some(SetTrustLineFlagsResult::CantRevoke),
            -4 => Some(SetTrustLineFlagsResult::InvalidState),
            -5 => Some(SetTrustLineFlagsResult::LowReserve),
            _ => None,
        }
    }

    fn code(&self) -> i32 {
        match self {
            SetTrustLineFlagsResult::Success => 0,
            SetTrustLineFlagsResult::Malformed => -1,
            SetTrustLineFlagsResult::NoTrustLine => -2,
            SetTrustLineFlagsResult::CantRevoke => -3,
            SetTrustLineFlagsResult::InvalidState => -4,
            SetTrustLineFlagsResult::LowReserve => -5,
        }
    }
}
