//! What sponsorship answers.

ghost use Rattle.std.specs.Prelude.{◌≡◌, OnOk};
ghost use Rattle.xdr_core.specs.Position.{Reads, itself};
ghost use Rattle.xdr_results.specs.Answers as spec;

use crate::coded::{read_code, write_code};
use op_types::{
    BeginSponsoringFutureReservesResult, EndSponsoringFutureReservesResult, RevokeSponsorshipResult,
};
use std::alloc::AllocError;
use xdr_core::{Builder, Cursor, XdrFault};

/// Reads what BEGIN_SPONSORING_FUTURE_RESERVES answers.
#[tactic(auto, unfolding(crate::specs::Answers::begin_sponsoring_future_reserves_result))]
pub fn read_begin_sponsoring_future_reserves_result(
    cursor: &mut Cursor<'_>,
) -> Result<BeginSponsoringFutureReservesResult, XdrFault>
    ensures { Reads itself result cursor.old cursor.new (spec.begin_sponsoring_future_reserves_result.read cursor.old) }
{
    read_code(cursor)
}

/// Writes what BEGIN_SPONSORING_FUTURE_RESERVES answers.
#[tactic(auto, unfolding(crate::specs::Answers::begin_sponsoring_future_reserves_result))]
pub fn write_begin_sponsoring_future_reserves_result(
    value: &BeginSponsoringFutureReservesResult,
    builder: &mut Builder,
) -> Result<(), AllocError>
    ensures { OnOk result (builder.new ≡ spec.begin_sponsoring_future_reserves_result.onto builder.old value.now) }
{
    write_code(value, builder)
}

/// Reads what END_SPONSORING_FUTURE_RESERVES answers.
#[tactic(auto, unfolding(crate::specs::Answers::end_sponsoring_future_reserves_result))]
pub fn read_end_sponsoring_future_reserves_result(
    cursor: &mut Cursor<'_>,
) -> Result<EndSponsoringFutureReservesResult, XdrFault>
    ensures { Reads itself result cursor.old cursor.new (spec.end_sponsoring_future_reserves_result.read cursor.old) }
{
    read_code(cursor)
}

/// Writes what END_SPONSORING_FUTURE_RESERVES answers.
#[tactic(auto, unfolding(crate::specs::Answers::end_sponsoring_future_reserves_result))]
pub fn write_end_sponsoring_future_reserves_result(
    value: &EndSponsoringFutureReservesResult,
    builder: &mut Builder,
) -> Result<(), AllocError>
    ensures { OnOk result (builder.new ≡ spec.end_sponsoring_future_reserves_result.onto builder.old value.now) }
{
    write_code(value, builder)
}

/// Reads what REVOKE_SPONSORSHIP answers.
#[tactic(auto, unfolding(crate::specs::Answers::revoke_sponsorship_result))]
pub fn read_revoke_sponsorship_result(
    cursor: &mut Cursor<'_>,
) -> Result<RevokeSponsorshipResult, XdrFault>
    ensures { Reads itself result cursor.old cursor.new (spec.revoke_sponsorship_result.read cursor.old) }
{
    read_code(cursor)
}

/// Writes what REVOKE_SPONSORSHIP answers.
#[tactic(auto, unfolding(crate::specs::Answers::revoke_sponsorship_result))]
pub fn write_revoke_sponsorship_result(
    value: &RevokeSponsorshipResult,
    builder: &mut Builder,
) -> Result<(), AllocError>
    ensures { OnOk result (builder.new ≡ spec.revoke_sponsorship_result.onto builder.old value.now) }
{
    write_code(value, builder)
}
