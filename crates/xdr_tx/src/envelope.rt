//! Transactions with their signatures, and sets of them.

ghost use Rattle.std.specs.Prelude.{◌≡◌, ◌++◌, OnOk};
ghost use Rattle.xdr_core.specs.Position.{Reads};
ghost use Rattle.xdr_core.specs.ReadFault.{cause_of};
ghost use Rattle.xdr_tx.specs.Transactions as spec;

use crate::signature::{DecoratedSignatureFormat, MAX_SIGNATURES};
use crate::transaction::{
    read_transaction, read_transaction_v0, write_transaction, write_transaction_v0,
};
use ledger_types::{ENVELOPE_TYPE_TX, ENVELOPE_TYPE_TX_FEE_BUMP, ENVELOPE_TYPE_TX_V0};
use op_types::{
    FeeBumpTransaction, FeeBumpTransactionEnvelope, TransactionEnvelope, TransactionSet,
    TransactionV0Envelope, TransactionV1Envelope,
};
use std::alloc::{AllocError, Global};
use xdr_core::{Builder, Cursor, Decode, Encode, ReadFault, XdrKind, read_list, write_list};
use xdr_entries::{read_hash, read_muxed_account, write_hash, write_muxed_account};

/// Reads a transaction of the first version and its signatures.
#[tactic(auto, unfolding(crate::specs::Transactions::transaction_v0_envelope))]
pub fn read_transaction_v0_envelope(
    alloc: Global,
    cursor: &mut Cursor<'_>,
) -> Result<TransactionV0Envelope, ReadFault>
    ensures { Reads cause_of result cursor.old cursor.new (spec.transaction_v0_envelope.read cursor.old) }
{
    let mut ahead = cursor.fork();
    let tx = read_transaction_v0(alloc, &mut ahead)?;
    let signatures = read_list::<DecoratedSignatureFormat>(alloc, MAX_SIGNATURES, &mut ahead)?;
    *cursor = ahead;
    Ok(TransactionV0Envelope { tx, signatures })
}

/// Writes a transaction of the first version and its signatures.
#[tactic(auto, unfolding(crate::specs::Transactions::transaction_v0_envelope))]
pub fn write_transaction_v0_envelope(
    value: &TransactionV0Envelope,
    builder: &mut Builder,
) -> Result<(), AllocError>
    requires { spec.transaction_v0_envelope.within value.now }
    ensures { OnOk result (builder.new ≡ spec.transaction_v0_envelope.onto builder.old value.now) }
{
    write_transaction_v0(&value.tx, builder)?;
    write_list::<DecoratedSignatureFormat>(value.signatures.as_slice(), MAX_SIGNATURES, builder)
}

/// Reads a transaction and its signatures.
#[tactic(auto, unfolding(crate::specs::Transactions::transaction_v1_envelope))]
pub fn read_transaction_v1_envelope(
    alloc: Global,
    cursor: &mut Cursor<'_>,
) -> Result<TransactionV1Envelope, ReadFault>
    ensures { Reads cause_of result cursor.old cursor.new (spec.transaction_v1_envelope.read cursor.old) }
{
    let mut ahead = cursor.fork();
    let tx = read_transaction(alloc, &mut ahead)?;
    let signatures = read_list::<DecoratedSignatureFormat>(alloc, MAX_SIGNATURES, &mut ahead)?;
    *cursor = ahead;
    Ok(TransactionV1Envelope { tx, signatures })
}

/// Writes a transaction and its signatures.
#[tactic(auto, unfolding(crate::specs::Transactions::transaction_v1_envelope))]
pub fn write_transaction_v1_envelope(
    value: &TransactionV1Envelope,
    builder: &mut Builder,
) -> Result<(), AllocError>
    requires { spec.transaction_v1_envelope.within value.now }
    ensures { OnOk result (builder.new ≡ spec.transaction_v1_envelope.onto builder.old value.now) }
{
    write_transaction(&value.tx, builder)?;
    write_list::<DecoratedSignatureFormat>(value.signatures.as_slice(), MAX_SIGNATURES, builder)
}

/// Reads the inner transaction of a fee bump, and the end of the fee bump.
fn read_inner_tx(alloc: Global, cursor: &mut Cursor<'_>) -> Result<TransactionV1Envelope, ReadFault>
    ensures { Reads cause_of result cursor.old cursor.new (spec.inner_tx.read cursor.old) }
{
    let mut ahead = cursor.fork();
    ahead.tag(ENVELOPE_TYPE_TX)?;
    let inner_tx = read_transaction_v1_envelope(alloc, &mut ahead)?;
    ahead.tag(0)?;
    *cursor = ahead;
    Ok(inner_tx)
}

/// Reads a fee bump.
#[tactic(auto, unfolding(crate::specs::Transactions::fee_bump_transaction))]
pub fn read_fee_bump_transaction(
    alloc: Global,
    cursor: &mut Cursor<'_>,
) -> Result<FeeBumpTransaction, ReadFault>
    ensures { Reads cause_of result cursor.old cursor.new (spec.fee_bump_transaction.read cursor.old) }
{
    let mut ahead = cursor.fork();
    let fee_source = read_muxed_account(&mut ahead)?;
    let fee = ahead.i64()?;
    let inner_tx = read_inner_tx(alloc, &mut ahead)?;
    *cursor = ahead;
    Ok(FeeBumpTransaction {
        fee_source,
        fee,
        inner_tx,
    })
}

/// Writes a fee bump.
#[tactic(auto, using(xdr_core::proofs::FormatLaws::written, crate::proofs::TransactionLaws::fee_bump_transaction_laws))]
pub fn write_fee_bump_transaction(
    value: &FeeBumpTransaction,
    builder: &mut Builder,
) -> Result<(), AllocError>
    requires { spec.fee_bump_transaction.within value.now }
    ensures { OnOk result (builder.new ≡ builder.old ++ spec.fee_bump_transaction.encoding value.now) }
{
    write_fee_bump_fields(value, builder)
}

/// Writes the fields of a fee bump.
#[tactic(auto, unfolding(crate::specs::Transactions::fee_bump_transaction, xdr_core::specs::Combinators::constant))]
fn write_fee_bump_fields(
    value: &FeeBumpTransaction,
    builder: &mut Builder,
) -> Result<(), AllocError>
    requires { spec.fee_bump_transaction.within value.now }
    ensures { OnOk result (builder.new ≡ spec.fee_bump_transaction.onto builder.old value.now) }
{
    write_muxed_account(&value.fee_source, builder)?;
    builder.i64(value.fee)?;
    builder.i32(ENVELOPE_TYPE_TX)?;
    write_transaction_v1_envelope(&value.inner_tx, builder)?;
    builder.i32(0)
}

/// Reads a fee bump and its signatures.
#[tactic(auto, unfolding(crate::specs::Transactions::fee_bump_envelope))]
pub fn read_fee_bump_envelope(
    alloc: Global,
    cursor: &mut Cursor<'_>,
) -> Result<FeeBumpTransactionEnvelope, ReadFault>
    ensures { Reads cause_of result cursor.old cursor.new (spec.fee_bump_envelope.read cursor.old) }
{
    let mut ahead = cursor.fork();
    let tx = read_fee_bump_transaction(alloc, &mut ahead)?;
    let signatures = read_list::<DecoratedSignatureFormat>(alloc, MAX_SIGNATURES, &mut ahead)?;
    *cursor = ahead;
    Ok(FeeBumpTransactionEnvelope { tx, signatures })
}

/// Writes a fee bump and its signatures.
#[tactic(auto, unfolding(crate::specs::Transactions::fee_bump_envelope))]
pub fn write_fee_bump_envelope(
    value: &FeeBumpTransactionEnvelope,
    builder: &mut Builder,
) -> Result<(), AllocError>
    requires { spec.fee_bump_envelope.within value.now }
    ensures { OnOk result (builder.new ≡ spec.fee_bump_envelope.onto builder.old value.now) }
{
    write_fee_bump_transaction(&value.tx, builder)?;
    write_list::<DecoratedSignatureFormat>(value.signatures.as_slice(), MAX_SIGNATURES, builder)
}

/// Reads an envelope.
#[tactic(auto, unfolding(crate::specs::Transactions::transaction_envelope))]
pub fn read_transaction_envelope(
    alloc: Global,
    cursor: &mut Cursor<'_>,
) -> Result<TransactionEnvelope, ReadFault>
    ensures { Reads cause_of result cursor.old cursor.new (spec.transaction_envelope.read cursor.old) }
{
    let mut ahead = cursor.fork();
    let envelope = match ahead.i32()? {
        ENVELOPE_TYPE_TX_V0 => {
            TransactionEnvelope::V0(read_transaction_v0_envelope(alloc, &mut ahead)?)
        }
        ENVELOPE_TYPE_TX => {
            TransactionEnvelope::V1(read_transaction_v1_envelope(alloc, &mut ahead)?)
        }
        ENVELOPE_TYPE_TX_FEE_BUMP => {
            TransactionEnvelope::FeeBump(read_fee_bump_envelope(alloc, &mut ahead)?)
        }
        _ => return Err(ReadFault::Xdr(cursor.fault(XdrKind::BadEnum))),
    };
    *cursor = ahead;
    Ok(envelope)
}

/// Writes an envelope.
#[tactic(auto, using(xdr_core::proofs::FormatLaws::written, crate::proofs::TransactionLaws::transaction_envelope_laws))]
pub fn write_transaction_envelope(
    value: &TransactionEnvelope,
    builder: &mut Builder,
) -> Result<(), AllocError>
    requires { spec.transaction_envelope.within value.now }
    ensures { OnOk result (builder.new ≡ builder.old ++ spec.transaction_envelope.encoding value.now) }
{
    write_envelope_arm(value, builder)
}

/// Writes the type of an envelope and what follows it.
#[tactic(auto, unfolding(crate::specs::Transactions::transaction_envelope))]
fn write_envelope_arm(value: &TransactionEnvelope, builder: &mut Builder) -> Result<(), AllocError>
    requires { spec.transaction_envelope.within value.now }
    ensures { OnOk result (builder.new ≡ spec.transaction_envelope.onto builder.old value.now) }
{
    match value {
        TransactionEnvelope::V0(envelope) => {
            builder.i32(ENVELOPE_TYPE_TX_V0)?;
            write_transaction_v0_envelope(envelope, builder)
        }
        TransactionEnvelope::V1(envelope) => {
            builder.i32(ENVELOPE_TYPE_TX)?;
            write_transaction_v1_envelope(envelope, builder)
        }
        TransactionEnvelope::FeeBump(envelope) => {
            builder.i32(ENVELOPE_TYPE_TX_FEE_BUMP)?;
            write_fee_bump_envelope(envelope, builder)
        }
    }
}

/// Envelopes, as a format.
pub enum TransactionEnvelopeFormat {}

impl Decode for TransactionEnvelopeFormat {
    type Value = TransactionEnvelope;

    type Failure = ReadFault;

    ghost format = { spec.transaction_envelope };

    fn decode(alloc: Global, cursor: &mut Cursor<'_>) -> Result<TransactionEnvelope, ReadFault> {
        read_transaction_envelope(alloc, cursor)
    }
}

impl Encode for TransactionEnvelopeFormat {
    fn encode(value: &TransactionEnvelope, builder: &mut Builder) -> Result<(), AllocError> {
        write_transaction_envelope(value, builder)
    }
}

/// Reads a set of transactions.
#[tactic(auto, unfolding(crate::specs::Transactions::transaction_set))]
pub fn read_transaction_set(
    alloc: Global,
    cursor: &mut Cursor<'_>,
) -> Result<TransactionSet, ReadFault>
    ensures { Reads cause_of result cursor.old cursor.new (spec.transaction_set.read cursor.old) }
{
    let mut ahead = cursor.fork();
    let previous_ledger_hash = read_hash(&mut ahead)?;
    let txs = read_list::<TransactionEnvelopeFormat>(alloc, u32::MAX, &mut ahead)?;
    *cursor = ahead;
    Ok(TransactionSet {
        previous_ledger_hash,
        txs,
    })
}

/// Writes a set of transactions.
#[tactic(auto, using(xdr_core::proofs::FormatLaws::written, crate::proofs::TransactionLaws::transaction_set_laws))]
pub fn write_transaction_set(
    value: &TransactionSet,
    builder: &mut Builder,
) -> Result<(), AllocError>
    requires { spec.transaction_set.within value.now }
    ensures { OnOk result (builder.new ≡ builder.old ++ spec.transaction_set.encoding value.now) }
{
    write_set_fields(value, builder)
}

/// Writes the fields of a set of transactions.
#[tactic(auto, unfolding(crate::specs::Transactions::transaction_set))]
fn write_set_fields(value: &TransactionSet, builder: &mut Builder) -> Result<(), AllocError>
    requires { spec.transaction_set.within value.now }
    ensures { OnOk result (builder.new ≡ spec.transaction_set.onto builder.old value.now) }
{
    write_hash(&value.previous_ledger_hash, builder)?;
    write_list::<TransactionEnvelopeFormat>(value.txs.as_slice(), u32::MAX, builder)
}
