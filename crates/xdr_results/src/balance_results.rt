//! What operations on claimable balances answer.

ghost use Rattle.std.specs.Prelude.{◌≡◌, OnOk};
ghost use Rattle.xdr_core.specs.Position.{Reads, itself};
ghost use Rattle.xdr_results.specs.Answers as spec;

use crate::coded::{plain_value, read_code, write_code};
use op_types::{
    ClaimClaimableBalanceResult, ClawbackClaimableBalanceResult, Coded,
    CreateClaimableBalanceResult,
};
use std::alloc::AllocError;
use xdr_core::{Builder, Cursor, XdrFault};
use xdr_entries::{read_claimable_balance_id, write_claimable_balance_id};

/// CREATE_CLAIMABLE_BALANCE_SUCCESS (Stellar-transaction.x).
const CREATE_CLAIMABLE_BALANCE_SUCCESS: i32 = 0;

/// Reads what CREATE_CLAIMABLE_BALANCE answers.
#[tactic(auto, unfolding(crate::specs::Answers::create_claimable_balance_result))]
pub fn read_create_claimable_balance_result(
    cursor: &mut Cursor<'_>,
) -> Result<CreateClaimableBalanceResult, XdrFault>
    ensures { Reads itself result cursor.old cursor.new (spec.create_claimable_balance_result.read cursor.old) }
{
    let mut ahead = cursor.fork();
    let answer = match ahead.i32()? {
        CREATE_CLAIMABLE_BALANCE_SUCCESS => CreateClaimableBalanceResult::Success(
            read_claimable_balance_id(&mut ahead)?,
        ),
        code => plain_value(code, cursor)?,
    };
    *cursor = ahead;
    Ok(answer)
}

/// Writes what CREATE_CLAIMABLE_BALANCE answers.
#[tactic(auto, unfolding(crate::specs::Answers::create_claimable_balance_result))]
pub fn write_create_claimable_balance_result(
    value: &CreateClaimableBalanceResult,
    builder: &mut Builder,
) -> Result<(), AllocError>
    ensures { OnOk result (builder.new ≡ spec.create_claimable_balance_result.onto builder.old value.now) }
{
    builder.i32(value.code())?;
    match value {
        CreateClaimableBalanceResult::Success(inner) => write_claimable_balance_id(inner, builder),
        _ => Ok(()),
    }
}

/// Reads what CLAIM_CLAIMABLE_BALANCE answers.
#[tactic(auto, unfolding(crate::specs::Answers::claim_claimable_balance_result))]
pub fn read_claim_claimable_balance_result(
    cursor: &mut Cursor<'_>,
) -> Result<ClaimClaimableBalanceResult, XdrFault>
    ensures { Reads itself result cursor.old cursor.new (spec.claim_claimable_balance_result.read cursor.old) }
{
    read_code(cursor)
}

/// Writes what CLAIM_CLAIMABLE_BALANCE answers.
#[tactic(auto, unfolding(crate::specs::Answers::claim_claimable_balance_result))]
pub fn write_claim_claimable_balance_result(
    value: &ClaimClaimableBalanceResult,
    builder: &mut Builder,
) -> Result<(), AllocError>
    ensures { OnOk result (builder.new ≡ spec.claim_claimable_balance_result.onto builder.old value.now) }
{
    write_code(value, builder)
}

/// Reads what CLAWBACK_CLAIMABLE_BALANCE answers.
#[tactic(auto, unfolding(crate::specs::Answers::clawback_claimable_balance_result))]
pub fn read_clawback_claimable_balance_result(
    cursor: &mut Cursor<'_>,
) -> Result<ClawbackClaimableBalanceResult, XdrFault>
    ensures { Reads itself result cursor.old cursor.new (spec.clawback_claimable_balance_result.read cursor.old) }
{
    read_code(cursor)
}

/// Writes what CLAWBACK_CLAIMABLE_BALANCE answers.
#[tactic(auto, unfolding(crate::specs::Answers::clawback_claimable_balance_result))]
pub fn write_clawback_claimable_balance_result(
    value: &ClawbackClaimableBalanceResult,
    builder: &mut Builder,
) -> Result<(), AllocError>
    ensures { OnOk result (builder.new ≡ spec.clawback_claimable_balance_result.onto builder.old value.now) }
{
    write_code(value, builder)
}
