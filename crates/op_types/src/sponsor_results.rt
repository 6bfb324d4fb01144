//! What sponsorship answers.

ghost use Rattle.op_types.specs.Codes.{begin_sponsoring_future_reserves_code, begin_sponsoring_future_reserves_values};
ghost use Rattle.op_types.specs.Codes.{end_sponsoring_future_reserves_code, end_sponsoring_future_reserves_values};
ghost use Rattle.op_types.specs.Codes.{revoke_sponsorship_code, revoke_sponsorship_values};

use crate::coded::Coded;

/// What BEGIN_SPONSORING_FUTURE_RESERVES answers (BeginSponsoringFutureReservesResult in Stellar-transaction.x).
#[derive(Clone, Copy)]
pub enum BeginSponsoringFutureReservesResult {
    /// BEGIN_SPONSORING_FUTURE_RESERVES_SUCCESS, 0.
    Success,
    /// BEGIN_SPONSORING_FUTURE_RESERVES_MALFORMED, -1.
    Malformed,
    /// BEGIN_SPONSORING_FUTURE_RESERVES_ALREADY_SPONSORED, -2.
    AlreadySponsored,
    /// BEGIN_SPONSORING_FUTURE_RESERVES_RECURSIVE, -3.
    Recursive,
}

impl Coded for BeginSponsoringFutureReservesResult {
    ghost values = { begin_sponsoring_future_reserves_values };

    ghost number = { begin_sponsoring_future_reserves_code };

    fn from_code(code: i32) -> Option<BeginSponsoringFutureReservesResult> {
        match code {
            0 => Some(BeginSponsoringFutureReservesResult::Success),
            -1 => Some(BeginSponsoringFutureReservesResult::Malformed),
            -2 => Some(BeginSponsoringFutureReservesResult::AlreadySponsored),
            -3 => Some(BeginSponsoringFutureReservesResult::Recursive),
            _ => None,
        }
    }

    fn code(&self) -> i32 {
        match self {
            BeginSponsoringFutureReservesResult::Success => 0,
            BeginSponsoringFutureReservesResult::Malformed => -1,
            BeginSponsoringFutureReservesResult::AlreadySponsored => -2,
            BeginSponsoringFutureReservesResult::Recursive => -3,
        }
    }
}

/// What END_SPONSORING_FUTURE_RESERVES answers (EndSponsoringFutureReservesResult in Stellar-transaction.x).
#[derive(Clone, Copy)]
pub enum EndSponsoringFutureReservesResult {
    /// END_SPONSORING_FUTURE_RESERVES_SUCCESS, 0.
    Success,
    /// END_SPONSORING_FUTURE_RESERVES_NOT_SPONSORED, -1.
    NotSponsored,
}

impl Coded for EndSponsoringFutureReservesResult {
    ghost values = { end_sponsoring_future_reserves_values };

    ghost number = { end_sponsoring_future_reserves_code };

    fn from_code(code: i32) -> Option<EndSponsoringFutureReservesResult> {
        match code {
            0 => Some(EndSponsoringFutureReservesResult::Success),
            -1 => Some(EndSponsoringFutureReservesResult::NotSponsored),
            _ => None,
        }
    }

    fn code(&self) -> i32 {
        match self {
            EndSponsoringFutureReservesResult::Success => 0,
            EndSponsoringFutureReservesResult::NotSponsored => -1,
        }
    }
}

/// What REVOKE_SPONSORSHIP answers (RevokeSponsorshipResult in Stellar-transaction.x).
#[derive(Clone, Copy)]
pub enum RevokeSponsorshipResult {
    /// REVOKE_SPONSORSHIP_SUCCESS, 0.
    Success,
    /// REVOKE_SPONSORSHIP_DOES_NOT_EXIST, -1.
    DoesNotExist,
    /// REVOKE_SPONSORSHIP_NOT_SPONSOR, -2.
    NotSponsor,
    /// REVOKE_SPONSORSHIP_LOW_RESERVE, -3.
    LowReserve,
    /// REVOKE_SPONSORSHIP_ONLY_TRANSFERABLE, -4.
    OnlyTransferable,
    /// REVOKE_SPONSORSHIP_MALFORMED, -5.
    Malformed,
}

impl Coded for RevokeSponsorshipResult {
    ghost values = { revoke_sponsorship_values };

    ghost number = { revoke_sponsorship_code };

    fn from_code(code: i32) -> Option<RevokeSponsorshipResult> {
        match code {
            0 => Some(RevokeSponsorshipResult::Success),
            -1 => Some(RevokeSponsorshipResult::DoesNotExist),
            -2 => Some(RevokeSponsorshipResult::NotSponsor),
            -3 => Some(RevokeSponsorshipResult::LowReserve),
            -4 => Some(RevokeSponsorshipResult::OnlyTransferable),
            -5 => Some(RevokeSponsorshipResult::Malformed),
            _ => None,
        }
    }

    fn code(&self) -> i32 {
        match self {
            RevokeSponsorshipResult::Success => 0,
            RevokeSponsorshipResult::DoesNotExist => -1,
            RevokeSponsorshipResult::NotSponsor => -2,
            RevokeSponsorshipResult::LowReserve => -3,
            RevokeSponsorshipResult::OnlyTransferable => -4,
            RevokeSponsorshipResult::Malformed => -5,
        }
    }
}
