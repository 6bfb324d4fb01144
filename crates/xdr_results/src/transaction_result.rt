//! What transactions answer.

ghost use Rattle.std.specs.Prelude.{◌≡◌, ◌++◌, OnOk};
ghost use Rattle.xdr_core.specs.Position.{Reads};
ghost use Rattle.xdr_core.specs.ReadFault.{cause_of};
ghost use Rattle.xdr_results.specs.Results as spec;

use crate::coded::plain_value;
use crate::operation_result::OperationResultFormat;
use op_types::{
    Coded, InnerTransactionOutcome, InnerTransactionResult, InnerTransactionResultPair,
    TransactionOutcome, TransactionResult, TransactionResultPair, TransactionResultSet,
};
use std::alloc::{AllocError, Global};
use xdr_core::{Builder, Cursor, Decode, Encode, ReadFault, read_list, write_list};
use xdr_entries::{read_hash, write_hash};

/// txSUCCESS (Stellar-transaction.x).
const TX_SUCCESS: i32 = 0;

/// txFAILED (Stellar-transaction.x).
const TX_FAILED: i32 = -1;

/// txFEE_BUMP_INNER_SUCCESS (Stellar-transaction.x).
const TX_FEE_BUMP_INNER_SUCCESS: i32 = 1;

/// txFEE_BUMP_INNER_FAILED (Stellar-transaction.x).
const TX_FEE_BUMP_INNER_FAILED: i32 = -13;

/// Reads how the inner transaction of a fee bump ended.
#[tactic(auto, unfolding(crate::specs::Results::inner_transaction_outcome))]
pub fn read_inner_transaction_outcome(
    alloc: Global,
    cursor: &mut Cursor<'_>,
) -> Result<InnerTransactionOutcome, ReadFault>
    ensures { Reads cause_of result cursor.old cursor.new (spec.inner_transaction_outcome.read cursor.old) }
{
    let mut ahead = cursor.fork();
    let answer = match ahead.i32()? {
        TX_SUCCESS => InnerTransactionOutcome::Success(read_list::<OperationResultFormat>(
            alloc,
            u32::MAX,
            &mut ahead,
        )?),
        TX_FAILED => InnerTransactionOutcome::Failed(read_list::<OperationResultFormat>(
            alloc,
            u32::MAX,
            &mut ahead,
        )?),
        code => plain_value(code, cursor)?,
    };
    *cursor = ahead;
    Ok(answer)
}

/// Writes how the inner transaction of a fee bump ended.
#[tactic(auto, unfolding(crate::specs::Results::inner_transaction_outcome))]
pub fn write_inner_transaction_outcome(
    value: &InnerTransactionOutcome,
    builder: &mut Builder,
) -> Result<(), AllocError>
    requires { spec.inner_transaction_outcome.within value.now }
    ensures { OnOk result (builder.new ≡ spec.inner_transaction_outcome.onto builder.old value.now) }
{
    builder.i32(value.code())?;
    match value {
        InnerTransactionOutcome::Success(inner) => write_list::<OperationResultFormat>(
            inner.as_slice(),
            u32::MAX,
            builder,
        ),
        InnerTransactionOutcome::Failed(inner) => write_list::<OperationResultFormat>(
            inner.as_slice(),
            u32::MAX,
            builder,
        ),
        _ => Ok(()),
    }
}

/// Reads what the inner transaction of a fee bump answers.
#[tactic(auto, unfolding(crate::specs::Results::inner_transaction_result))]
pub fn read_inner_transaction_result(
    alloc: Global,
    cursor: &mut Cursor<'_>,
) -> Result<InnerTransactionResult, ReadFault>
    ensures { Reads cause_of result cursor.old cursor.new (spec.inner_transaction_result.read cursor.old) }
{
    let mut ahead = cursor.fork();
    let fee_charged = ahead.i64()?;
    let outcome = read_inner_transaction_outcome(alloc, &mut ahead)?;
    ahead.tag(0)?;
    *cursor = ahead;
    Ok(InnerTransactionResult {
        fee_charged,
        outcome,
    })
}

/// Writes what the inner transaction of a fee bump answers.
#[tactic(auto, unfolding(crate::specs::Results::inner_transaction_result, xdr_core::specs::Combinators::constant))]
pub fn write_inner_transaction_result(
    value: &InnerTransactionResult,
    builder: &mut Builder,
) -> Result<(), AllocError>
    requires { spec.inner_transaction_result.within value.now }
    ensures { OnOk result (builder.new ≡ spec.inner_transaction_result.onto builder.old value.now) }
{
    builder.i64(value.fee_charged)?;
    write_inner_transaction_outcome(&value.outcome, builder)?;
    builder.i32(0)
}

/// Reads the result of an inner transaction beside its hash.
#[tactic(auto, unfolding(crate::specs::Results::inner_transaction_result_pair))]
pub fn read_inner_transaction_result_pair(
    alloc: Global,
    cursor: &mut Cursor<'_>,
) -> Result<InnerTransactionResultPair, ReadFault>
    ensures { Reads cause_of result cursor.old cursor.new (spec.inner_transaction_result_pair.read cursor.old) }
{
    let mut ahead = cursor.fork();
    let transaction_hash = read_hash(&mut ahead)?;
    let result = read_inner_transaction_result(alloc, &mut ahead)?;
    *cursor = ahead;
    Ok(InnerTransactionResultPair {
        transaction_hash,
        result,
    })
}

/// Writes the result of an inner transaction beside its hash.
#[tactic(auto, unfolding(crate::specs::Results::inner_transaction_result_pair))]
pub fn write_inner_transaction_result_pair(
    value: &InnerTransactionResultPair,
    builder: &mut Builder,
) -> Result<(), AllocError>
    requires { spec.inner_transaction_result_pair.within value.now }
    ensures { OnOk result (builder.new ≡ spec.inner_transaction_result_pair.onto builder.old value.now) }
{
    write_hash(&value.transaction_hash, builder)?;
    write_inner_transaction_result(&value.result, builder)
}

/// Reads how a transaction ended.
#[tactic(auto, unfolding(crate::specs::Results::transaction_outcome))]
pub fn read_transaction_outcome(
    alloc: Global,
    cursor: &mut Cursor<'_>,
) -> Result<TransactionOutcome, ReadFault>
    ensures { Reads cause_of result cursor.old cursor.new (spec.transaction_outcome.read cursor.old) }
{
    let mut ahead = cursor.fork();
    let answer = match ahead.i32()? {
        TX_SUCCESS => TransactionOutcome::Success(read_list::<OperationResultFormat>(
            alloc,
            u32::MAX,
            &mut ahead,
        )?),
        TX_FAILED => TransactionOutcome::Failed(read_list::<OperationResultFormat>(
            alloc,
            u32::MAX,
            &mut ahead,
        )?),
        TX_FEE_BUMP_INNER_SUCCESS => TransactionOutcome::FeeBumpInnerSuccess(
            read_inner_transaction_result_pair(alloc, &mut ahead)?,
        ),
        TX_FEE_BUMP_INNER_FAILED => TransactionOutcome::FeeBumpInnerFailed(
            read_inner_transaction_result_pair(alloc, &mut ahead)?,
        ),
        code => plain_value(code, cursor)?,
    };
    *cursor = ahead;
    Ok(answer)
}

/// Writes how a transaction ended.
#[tactic(auto, unfolding(crate::specs::Results::transaction_outcome))]
pub fn write_transaction_outcome(
    value: &TransactionOutcome,
    builder: &mut Builder,
) -> Result<(), AllocError>
    requires { spec.transaction_outcome.within value.now }
    ensures { OnOk result (builder.new ≡ spec.transaction_outcome.onto builder.old value.now) }
{
    builder.i32(value.code())?;
    match value {
        TransactionOutcome::Success(inner) => write_list::<OperationResultFormat>(
            inner.as_slice(),
            u32::MAX,
            builder,
        ),
        TransactionOutcome::Failed(inner) => write_list::<OperationResultFormat>(
            inner.as_slice(),
            u32::MAX,
            builder,
        ),
        TransactionOutcome::FeeBumpInnerSuccess(inner) => write_inner_transaction_result_pair(
            inner, builder,
        ),
        TransactionOutcome::FeeBumpInnerFailed(inner) => write_inner_transaction_result_pair(
            inner, builder,
        ),
        _ => Ok(()),
    }
}

/// Reads what a transaction answers.
#[tactic(auto, unfolding(crate::specs::Results::transaction_result))]
pub fn read_transaction_result(
    alloc: Global,
    cursor: &mut Cursor<'_>,
) -> Result<TransactionResult, ReadFault>
    ensures { Reads cause_of result cursor.old cursor.new (spec.transaction_result.read cursor.old) }
{
    let mut ahead = cursor.fork();
    let fee_charged = ahead.i64()?;
    let outcome = read_transaction_outcome(alloc, &mut ahead)?;
    ahead.tag(0)?;
    *cursor = ahead;
    Ok(TransactionResult {
        fee_charged,
        outcome,
    })
}

/// Writes what a transaction answers.
#[tactic(auto, unfolding(crate::specs::Results::transaction_result, xdr_core::specs::Combinators::constant))]
pub fn write_transaction_result(
    value: &TransactionResult,
    builder: &mut Builder,
) -> Result<(), AllocError>
    requires { spec.transaction_result.within value.now }
    ensures { OnOk result (builder.new ≡ spec.transaction_result.onto builder.old value.now) }
{
    builder.i64(value.fee_charged)?;
    write_transaction_outcome(&value.outcome, builder)?;
    builder.i32(0)
}

/// Reads a transaction's result beside its hash.
#[tactic(auto, unfolding(crate::specs::Results::transaction_result_pair))]
pub fn read_transaction_result_pair(
    alloc: Global,
    cursor: &mut Cursor<'_>,
) -> Result<TransactionResultPair, ReadFault>
    ensures { Reads cause_of result cursor.old cursor.new (spec.transaction_result_pair.read cursor.old) }
{
    let mut ahead = cursor.fork();
    let transaction_hash = read_hash(&mut ahead)?;
    let result = read_transaction_result(alloc, &mut ahead)?;
    *cursor = ahead;
    Ok(TransactionResultPair {
        transaction_hash,
        result,
    })
}

/// Writes a transaction's result beside its hash.
#[tactic(auto, using(crate::proofs::TransactionLaws::pair_written))]
pub fn write_transaction_result_pair(
    value: &TransactionResultPair,
    builder: &mut Builder,
) -> Result<(), AllocError>
    requires { spec.transaction_result_pair.within value.now }
    ensures { OnOk result (builder.new ≡ builder.old ++ spec.transaction_result_pair.encoding value.now) }
{
    write_pair_fields(value, builder)
}

/// Writes the fields of a result with its transaction's hash.
#[tactic(auto, unfolding(crate::specs::Results::transaction_result_pair))]
fn write_pair_fields(value: &TransactionResultPair, builder: &mut Builder) -> Result<(), AllocError>
    requires { spec.transaction_result_pair.within value.now }
    ensures { OnOk result (builder.new ≡ spec.transaction_result_pair.onto builder.old value.now) }
{
    write_hash(&value.transaction_hash, builder)?;
    write_transaction_result(&value.result, builder)
}

/// Results beside their hashes, as a format.
pub enum TransactionResultPairFormat {}

impl Decode for TransactionResultPairFormat {
    type Value = TransactionResultPair;

    type Failure = ReadFault;

    ghost format = { spec.transaction_result_pair };

    fn decode(alloc: Global, cursor: &mut Cursor<'_>) -> Result<TransactionResultPair, ReadFault> {
        read_transaction_result_pair(alloc, cursor)
    }
}

impl Encode for TransactionResultPairFormat {
    fn encode(value: &TransactionResultPair, builder: &mut Builder) -> Result<(), AllocError> {
        write_transaction_result_pair(value, builder)
    }
}

/// Reads the results of a set.
#[tactic(auto, unfolding(crate::specs::Results::transaction_result_set))]
pub fn read_transaction_result_set(
    alloc: Global,
    cursor: &mut Cursor<'_>,
) -> Result<TransactionResultSet, ReadFault>
    ensures { Reads cause_of result cursor.old cursor.new (spec.transaction_result_set.read cursor.old) }
{
    let mut ahead = cursor.fork();
    let results = read_list::<TransactionResultPairFormat>(alloc, u32::MAX, &mut ahead)?;
    *cursor = ahead;
    Ok(TransactionResultSet { results })
}

/// Writes the results of a set.
#[tactic(auto, using(crate::proofs::TransactionLaws::set_written))]
pub fn write_transaction_result_set(
    value: &TransactionResultSet,
    builder: &mut Builder,
) -> Result<(), AllocError>
    requires { spec.transaction_result_set.within value.now }
    ensures { OnOk result (builder.new ≡ builder.old ++ spec.transaction_result_set.encoding value.now) }
{
    write_set_fields(value, builder)
}

/// Writes the results of a set one after another, after their number.
#[tactic(auto, unfolding(crate::specs::Results::transaction_result_set))]
fn write_set_fields(value: &TransactionResultSet, builder: &mut Builder) -> Result<(), AllocError>
    requires { spec.transaction_result_set.within value.now }
    ensures { OnOk result (builder.new ≡ spec.transaction_result_set.onto builder.old value.now) }
{
    write_list::<TransactionResultPairFormat>(value.results.as_slice(), u32::MAX, builder)
}
