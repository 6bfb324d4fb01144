//! What operations on trust lines answer.

ghost use Rattle.std.specs.Prelude.{◌≡◌, OnOk};
ghost use Rattle.xdr_core.specs.Position.{Reads, itself};
ghost use Rattle.xdr_results.specs.Answers as spec;

use crate::coded::{read_code, write_code};
use op_types::{AllowTrustResult, ChangeTrustResult, ClawbackResult, SetTrustLineFlagsResult};
use std::alloc::AllocError;
use xdr_core::{Builder, Cursor, XdrFault};

/// Reads what CHANGE_TRUST answers.
#[tactic(auto, unfolding(crate::specs::Answers::change_trust_result))]
pub fn read_change_trust_result(cursor: &mut Cursor<'_>) -> Result<ChangeTrustResult, XdrFault>
    ensures { Reads itself result cursor.old cursor.new (spec.change_trust_result.read cursor.old) }
{
    read_code(cursor)
}

/// Writes what CHANGE_TRUST answers.
#[tactic(auto, unfolding(crate::specs::Answers::change_trust_result))]
pub fn write_change_trust_result(
    value: &ChangeTrustResult,
    builder: &mut Builder,
) -> Result<(), AllocError>
    ensures { OnOk result (builder.new ≡ spec.change_trust_result.onto builder.old value.now) }
{
    write_code(value, builder)
}

/// Reads what ALLOW_TRUST answers.
#[tactic(auto, unfolding(crate::specs::Answers::allow_trust_result))]
pub fn read_allow_trust_result(cursor: &mut Cursor<'_>) -> Result<AllowTrustResult, XdrFault>
    ensures { Reads itself result cursor.old cursor.new (spec.allow_trust_result.read cursor.old) }
{
    read_code(cursor)
}

/// Writes what ALLOW_TRUST answers.
#[tactic(auto, unfolding(crate::specs::Answers::allow_trust_result))]
pub fn write_allow_trust_result(
    value: &AllowTrustResult,
    builder: &mut Builder,
) -> Result<(), AllocError>
    ensures { OnOk result (builder.new ≡ spec.allow_trust_result.onto builder.old value.now) }
{
    write_code(value, builder)
}

/// Reads what CLAWBACK answers.
#[tactic(auto, unfolding(crate::specs::Answers::clawback_result))]
pub fn read_clawback_result(cursor: &mut Cursor<'_>) -> Result<ClawbackResult, XdrFault>
    ensures { Reads itself result cursor.old cursor.new (spec.clawback_result.read cursor.old) }
{
    read_code(cursor)
}

/// Writes what CLAWBACK answers.
#[tactic(auto, unfolding(crate::specs::Answers::clawback_result))]
pub fn write_clawback_result(
    value: &ClawbackResult,
    builder: &mut Builder,
) -> Result<(), AllocError>
    ensures { OnOk result (builder.new ≡ spec.clawback_result.onto builder.old value.now) }
{
    write_code(value, builder)
}

/// Reads what SET_TRUST_LINE_FLAGS answers.
#[tactic(auto, unfolding(crate::specs::Answers::set_trust_line_flags_result))]
pub fn read_set_trust_line_flags_result(
    cursor: &mut Cursor<'_>,
) -> Result<SetTrustLineFlagsResult, XdrFault>
    ensures { Reads itself result cursor.old cursor.new (spec.set_trust_line_flags_result.read cursor.old) }
{
    read_code(cursor)
}

/// Writes what SET_TRUST_LINE_FLAGS answers.
#[tactic(auto, unfolding(crate::specs::Answers::set_trust_line_flags_result))]
pub fn write_set_trust_line_flags_result(
    value: &SetTrustLineFlagsResult,
    builder: &mut Builder,
) -> Result<(), AllocError>
    ensures { OnOk result (builder.new ≡ spec.set_trust_line_flags_result.onto builder.old value.now) }
{
    write_code(value, builder)
}
