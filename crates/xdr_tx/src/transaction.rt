//! Transactions without their signatures.

ghost use Rattle.std.specs.Prelude.{◌≡◌, ◌++◌, OnOk};
ghost use Rattle.xdr_core.specs.Position.{Reads};
ghost use Rattle.xdr_core.specs.ReadFault.{cause_of};
ghost use Rattle.xdr_tx.specs.Transactions as spec;

use crate::memo::{read_memo, write_memo};
use crate::operation::OperationFormat;
use crate::preconditions::{read_preconditions, write_preconditions};
use crate::time_bounds::TimeBoundsFormat;
use item_list::ItemList;
use op_types::{Memo, Operation, Transaction, TransactionV0};
use std::alloc::{AllocError, Global};
use xdr_core::{Builder, Cursor, ReadFault, read_list, read_option, write_list, write_option};
use xdr_entries::{read_muxed_account, write_muxed_account};

/// The most operations of a transaction (MAX_OPS_PER_TX in Stellar-transaction.x).
const MAX_OPERATIONS: u32 = 100;

/// Reads what both versions end with.
#[tactic(auto, unfolding(crate::specs::Transactions::transaction_tail))]
fn read_tail(
    alloc: Global,
    cursor: &mut Cursor<'_>,
) -> Result<(Memo, ItemList<Operation>), ReadFault>
    ensures { Reads cause_of result cursor.old cursor.new (spec.transaction_tail.read cursor.old) }
{
    let mut ahead = cursor.fork();
    let memo = read_memo(alloc, &mut ahead)?;
    let operations = read_list::<OperationFormat>(alloc, MAX_OPERATIONS, &mut ahead)?;
    ahead.tag(0)?;
    *cursor = ahead;
    Ok((memo, operations))
}

/// Writes what both versions end with.
#[tactic(auto, unfolding(crate::specs::Transactions::transaction_tail, xdr_core::specs::Combinators::constant))]
fn write_tail(
    memo: &Memo,
    operations: &[Operation],
    builder: &mut Builder,
) -> Result<(), AllocError>
    requires { spec.transaction_tail.within (memo.now, operations.now) }
    ensures { OnOk result (builder.new ≡ spec.transaction_tail.onto builder.old (memo.now, operations.now)) }
{
    write_memo(memo, builder)?;
    write_list::<OperationFormat>(operations, MAX_OPERATIONS, builder)?;
    builder.i32(0)
}

/// Reads a transaction.
#[tactic(auto, unfolding(crate::specs::Transactions::transaction))]
pub fn read_transaction(alloc: Global, cursor: &mut Cursor<'_>) -> Result<Transaction, ReadFault>
    ensures { Reads cause_of result cursor.old cursor.new (spec.transaction.read cursor.old) }
{
    let mut ahead = cursor.fork();
    let source_account = read_muxed_account(&mut ahead)?;
    let fee = ahead.u32()?;
    let seq_num = ahead.i64()?;
    let cond = read_preconditions(alloc, &mut ahead)?;
    let (memo, operations) = read_tail(alloc, &mut ahead)?;
    *cursor = ahead;
    Ok(Transaction {
        source_account,
        fee,
        seq_num,
        cond,
        memo,
        operations,
    })
}

/// Writes a transaction.
#[tactic(auto, using(xdr_core::proofs::FormatLaws::written, crate::proofs::TransactionLaws::transaction_laws))]
pub fn write_transaction(value: &Transaction, builder: &mut Builder) -> Result<(), AllocError>
    requires { spec.transaction.within value.now }
    ensures { OnOk result (builder.new ≡ builder.old ++ spec.transaction.encoding value.now) }
{
    write_transaction_fields(value, builder)
}

/// Writes the fields of a transaction.
#[tactic(auto, unfolding(crate::specs::Transactions::transaction))]
fn write_transaction_fields(value: &Transaction, builder: &mut Builder) -> Result<(), AllocError>
    requires { spec.transaction.within value.now }
    ensures { OnOk result (builder.new ≡ spec.transaction.onto builder.old value.now) }
{
    write_muxed_account(&value.source_account, builder)?;
    builder.u32(value.fee)?;
    builder.i64(value.seq_num)?;
    write_preconditions(&value.cond, builder)?;
    write_tail(&value.memo, value.operations.as_slice(), builder)
}

/// Reads a transaction of the first version.
#[tactic(auto, unfolding(crate::specs::Transactions::transaction_v0))]
pub fn read_transaction_v0(
    alloc: Global,
    cursor: &mut Cursor<'_>,
) -> Result<TransactionV0, ReadFault>
    ensures { Reads cause_of result cursor.old cursor.new (spec.transaction_v0.read cursor.old) }
{
    let mut ahead = cursor.fork();
    let source_account_ed25519 = ahead.array::<32>()?;
    let fee = ahead.u32()?;
    let seq_num = ahead.i64()?;
    let time_bounds = read_option::<TimeBoundsFormat>(alloc, &mut ahead)?;
    let (memo, operations) = read_tail(alloc, &mut ahead)?;
    *cursor = ahead;
    Ok(TransactionV0 {
        source_account_ed25519,
        fee,
        seq_num,
        time_bounds,
        memo,
        operations,
    })
}

/// Writes a transaction of the first version.
#[tactic(auto, using(xdr_core::proofs::FormatLaws::written, crate::proofs::TransactionLaws::transaction_v0_laws))]
pub fn write_transaction_v0(value: &TransactionV0, builder: &mut Builder) -> Result<(), AllocError>
    requires { spec.transaction_v0.within value.now }
    ensures { OnOk result (builder.new ≡ builder.old ++ spec.transaction_v0.encoding value.now) }
{
    write_transaction_v0_fields(value, builder)
}

/// Writes the fields of a transaction of the first version.
#[tactic(auto, unfolding(crate::specs::Transactions::transaction_v0))]
fn write_transaction_v0_fields(
    value: &TransactionV0,
    builder: &mut Builder,
) -> Result<(), AllocError>
    requires { spec.transaction_v0.within value.now }
    ensures { OnOk result (builder.new ≡ spec.transaction_v0.onto builder.old value.now) }
{
    builder.fixed(&value.source_account_ed25519)?;
    builder.u32(value.fee)?;
    builder.i64(value.seq_num)?;
    write_option::<TimeBoundsFormat>(&value.time_bounds, builder)?;
    write_tail(&value.memo, value.operations.as_slice(), builder)
}
