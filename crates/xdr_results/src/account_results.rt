//! What operations on the source's own account answer.

ghost use Rattle.std.specs.Prelude.{◌≡◌, OnOk};
ghost use Rattle.xdr_core.specs.Position.{Reads, itself};
ghost use Rattle.xdr_core.specs.ReadFault.{cause_of};
ghost use Rattle.xdr_results.specs.Answers as spec;

use crate::coded::{plain_value, read_code, write_code};
use op_types::{
    AccountMergeResult, BumpSequenceResult, Coded, InflationPayout, InflationResult,
    ManageDataResult, SetOptionsResult,
};
use std::alloc::{AllocError, Global};
use xdr_core::{Builder, Cursor, Decode, Encode, ReadFault, XdrFault, read_list, write_list};
use xdr_entries::{read_account_id, write_account_id};

/// ACCOUNT_MERGE_SUCCESS (Stellar-transaction.x).
const ACCOUNT_MERGE_SUCCESS: i32 = 0;

/// INFLATION_SUCCESS (Stellar-transaction.x).
const INFLATION_SUCCESS: i32 = 0;

/// Reads what an account got of inflation.
#[tactic(auto, unfolding(crate::specs::Answers::inflation_payout))]
pub fn read_inflation_payout(cursor: &mut Cursor<'_>) -> Result<InflationPayout, XdrFault>
    ensures { Reads itself result cursor.old cursor.new (spec.inflation_payout.read cursor.old) }
{
    let mut ahead = cursor.fork();
    let destination = read_account_id(&mut ahead)?;
    let amount = ahead.i64()?;
    *cursor = ahead;
    Ok(InflationPayout {
        destination,
        amount,
    })
}

/// Writes what an account got of inflation.
#[tactic(auto, unfolding(crate::specs::Answers::inflation_payout))]
pub fn write_inflation_payout(
    value: &InflationPayout,
    builder: &mut Builder,
) -> Result<(), AllocError>
    ensures { OnOk result (builder.new ≡ spec.inflation_payout.onto builder.old value.now) }
{
    write_account_id(&value.destination, builder)?;
    builder.i64(value.amount)
}

/// Payouts, as a format.
pub enum InflationPayoutFormat {}

impl Decode for InflationPayoutFormat {
    type Value = InflationPayout;

    type Failure = ReadFault;

    ghost format = { spec.inflation_payout };

    fn decode(_alloc: Global, cursor: &mut Cursor<'_>) -> Result<InflationPayout, ReadFault> {
        Ok(read_inflation_payout(cursor)?)
    }
}

impl Encode for InflationPayoutFormat {
    #[tactic(auto, using(xdr_core::proofs::FormatLaws::written, crate::proofs::PayloadLaws::inflation_payout_laws))]
    fn encode(value: &InflationPayout, builder: &mut Builder) -> Result<(), AllocError> {
        write_inflation_payout(value, builder)
    }
}

/// Reads what SET_OPTIONS answers.
#[tactic(auto, unfolding(crate::specs::Answers::set_options_result))]
pub fn read_set_options_result(cursor: &mut Cursor<'_>) -> Result<SetOptionsResult, XdrFault>
    ensures { Reads itself result cursor.old cursor.new (spec.set_options_result.read cursor.old) }
{
    read_code(cursor)
}

/// Writes what SET_OPTIONS answers.
#[tactic(auto, unfolding(crate::specs::Answers::set_options_result))]
pub fn write_set_options_result(
    value: &SetOptionsResult,
    builder: &mut Builder,
) -> Result<(), AllocError>
    ensures { OnOk result (builder.new ≡ spec.set_options_result.onto builder.old value.now) }
{
    write_code(value, builder)
}

/// Reads what ACCOUNT_MERGE answers.
#[tactic(auto, unfolding(crate::specs::Answers::account_merge_result))]
pub fn read_account_merge_result(cursor: &mut Cursor<'_>) -> Result<AccountMergeResult, XdrFault>
    ensures { Reads itself result cursor.old cursor.new (spec.account_merge_result.read cursor.old) }
{
    let mut ahead = cursor.fork();
    let answer = match ahead.i32()? {
        ACCOUNT_MERGE_SUCCESS => AccountMergeResult::Success(ahead.i64()?),
        code => plain_value(code, cursor)?,
    };
    *cursor = ahead;
    Ok(answer)
}

/// Writes what ACCOUNT_MERGE answers.
#[tactic(auto, unfolding(crate::specs::Answers::account_merge_result))]
pub fn write_account_merge_result(
    value: &AccountMergeResult,
    builder: &mut Builder,
) -> Result<(), AllocError>
    ensures { OnOk result (builder.new ≡ spec.account_merge_result.onto builder.old value.now) }
{
    builder.i32(value.code())?;
    match value {
        AccountMergeResult::Success(inner) => builder.i64(*inner),
        _ => Ok(()),
    }
}

/// Reads what INFLATION answers.
#[tactic(auto, unfolding(crate::specs::Answers::inflation_result))]
pub fn read_inflation_result(
    alloc: Global,
    cursor: &mut Cursor<'_>,
) -> Result<InflationResult, ReadFault>
    ensures { Reads cause_of result cursor.old cursor.new (spec.inflation_result.read cursor.old) }
{
    let mut ahead = cursor.fork();
    let answer = match ahead.i32()? {
        INFLATION_SUCCESS => InflationResult::Success(read_list::<InflationPayoutFormat>(
            alloc,
            u32::MAX,
            &mut ahead,
        )?),
        code => plain_value(code, cursor)?,
    };
    *cursor = ahead;
    Ok(answer)
}

/// Writes what INFLATION answers.
#[tactic(auto, unfolding(crate::specs::Answers::inflation_result))]
pub fn write_inflation_result(
    value: &InflationResult,
    builder: &mut Builder,
) -> Result<(), AllocError>
    requires { spec.inflation_result.within value.now }
    ensures { OnOk result (builder.new ≡ spec.inflation_result.onto builder.old value.now) }
{
    builder.i32(value.code())?;
    match value {
        InflationResult::Success(inner) => write_list::<InflationPayoutFormat>(
            inner.as_slice(),
            u32::MAX,
            builder,
        ),
        _ => Ok(()),
    }
}

/// Reads what MANAGE_DATA answers.
#[tactic(auto, unfolding(crate::specs::Answers::manage_data_result))]
pub fn read_manage_data_result(cursor: &mut Cursor<'_>) -> Result<ManageDataResult, XdrFault>
    ensures { Reads itself result cursor.old cursor.new (spec.manage_data_result.read cursor.old) }
{
    read_code(cursor)
}

/// Writes what MANAGE_DATA answers.
#[tactic(auto, unfolding(crate::specs::Answers::manage_data_result))]
pub fn write_manage_data_result(
    value: &ManageDataResult,
    builder: &mut Builder,
) -> Result<(), AllocError>
    ensures { OnOk result (builder.new ≡ spec.manage_data_result.onto builder.old value.now) }
{
    write_code(value, builder)
}

/// Reads what BUMP_SEQUENCE answers.
#[tactic(auto, unfolding(crate::specs::Answers::bump_sequence_result))]
pub fn read_bump_sequence_result(cursor: &mut Cursor<'_>) -> Result<BumpSequenceResult, XdrFault>
    ensures { Reads itself result cursor.old cursor.new (spec.bump_sequence_result.read cursor.old) }
{
    read_code(cursor)
}

/// Writes what BUMP_SEQUENCE answers.
#[tactic(auto, unfolding(crate::specs::Answers::bump_sequence_result))]
pub fn write_bump_sequence_result(
    value: &BumpSequenceResult,
    builder: &mut Builder,
) -> Result<(), AllocError>
    ensures { OnOk result (builder.new ≡ spec.bump_sequence_result.onto builder.old value.now) }
{
    write_code(value, builder)
}
