//! What transactions ask beside their sequence numbers.

ghost use Rattle.std.specs.Prelude.{◌≡◌, OnOk};
ghost use Rattle.xdr_core.specs.Position.{Reads, itself};
ghost use Rattle.xdr_core.specs.ReadFault.{cause_of};
ghost use Rattle.xdr_tx.specs.Transactions as spec;

use crate::fields::I64Format;
use crate::time_bounds::{TimeBoundsFormat, read_time_bounds, write_time_bounds};
use op_types::{LedgerBounds, Preconditions, PreconditionsV2};
use std::alloc::{AllocError, Global};
use xdr_core::{
    Builder, Cursor, Decode, Encode, ReadFault, XdrFault, XdrKind, read_list, read_option,
    write_list, write_option,
};
use xdr_entries::SignerKeyFormat;

/// PRECOND_NONE (Stellar-transaction.x).
const PRECOND_NONE: i32 = 0;

/// PRECOND_TIME (Stellar-transaction.x).
const PRECOND_TIME: i32 = 1;

/// PRECOND_V2 (Stellar-transaction.x).
const PRECOND_V2: i32 = 2;

/// The most extra signers of a transaction (PreconditionsV2 in Stellar-transaction.x).
const MAX_EXTRA_SIGNERS: u32 = 2;

/// Reads ledger bounds.
#[tactic(auto, unfolding(crate::specs::Transactions::ledger_bounds))]
pub fn read_ledger_bounds(cursor: &mut Cursor<'_>) -> Result<LedgerBounds, XdrFault>
    ensures { Reads itself result cursor.old cursor.new (spec.ledger_bounds.read cursor.old) }
{
    let mut ahead = cursor.fork();
    let min_ledger = ahead.u32()?;
    let max_ledger = ahead.u32()?;
    *cursor = ahead;
    Ok(LedgerBounds {
        min_ledger,
        max_ledger,
    })
}

/// Writes ledger bounds.
#[tactic(auto, unfolding(crate::specs::Transactions::ledger_bounds))]
pub fn write_ledger_bounds(value: &LedgerBounds, builder: &mut Builder) -> Result<(), AllocError>
    ensures { OnOk result (builder.new ≡ spec.ledger_bounds.onto builder.old value.now) }
{
    builder.u32(value.min_ledger)?;
    builder.u32(value.max_ledger)
}

/// Ledger bounds, as a format.
pub enum LedgerBoundsFormat {}

impl Decode for LedgerBoundsFormat {
    type Value = LedgerBounds;

    type Failure = ReadFault;

    ghost format = { spec.ledger_bounds };

    fn decode(_alloc: Global, cursor: &mut Cursor<'_>) -> Result<LedgerBounds, ReadFault> {
        Ok(read_ledger_bounds(cursor)?)
    }
}

impl Encode for LedgerBoundsFormat {
    #[tactic(auto, using(xdr_core::proofs::FormatLaws::written, crate::proofs::TransactionLaws::ledger_bounds_laws))]
    fn encode(value: &LedgerBounds, builder: &mut Builder) -> Result<(), AllocError> {
        write_ledger_bounds(value, builder)
    }
}

/// Reads PreconditionsV2.
#[tactic(auto, unfolding(crate::specs::Transactions::preconditions_v2))]
pub fn read_preconditions_v2(
    alloc: Global,
    cursor: &mut Cursor<'_>,
) -> Result<PreconditionsV2, ReadFault>
    ensures { Reads cause_of result cursor.old cursor.new (spec.preconditions_v2.read cursor.old) }
{
    let mut ahead = cursor.fork();
    let time_bounds = read_option::<TimeBoundsFormat>(alloc, &mut ahead)?;
    let ledger_bounds = read_option::<LedgerBoundsFormat>(alloc, &mut ahead)?;
    let min_seq_num = read_option::<I64Format>(alloc, &mut ahead)?;
    let min_seq_age = ahead.u64()?;
    let min_seq_ledger_gap = ahead.u32()?;
    let extra_signers = read_list::<SignerKeyFormat>(alloc, MAX_EXTRA_SIGNERS, &mut ahead)?;
    *cursor = ahead;
    Ok(PreconditionsV2 {
        time_bounds,
        ledger_bounds,
        min_seq_num,
        min_seq_age,
        min_seq_ledger_gap,
        extra_signers,
    })
}

/// Writes PreconditionsV2.
#[tactic(auto, unfolding(crate::specs::Transactions::preconditions_v2))]
pub fn write_preconditions_v2(
    value: &PreconditionsV2,
    builder: &mut Builder,
) -> Result<(), AllocError>
    requires { spec.preconditions_v2.within value.now }
    ensures { OnOk result (builder.new ≡ spec.preconditions_v2.onto builder.old value.now) }
{
    write_option::<TimeBoundsFormat>(&value.time_bounds, builder)?;
    write_option::<LedgerBoundsFormat>(&value.ledger_bounds, builder)?;
    write_option::<I64Format>(&value.min_seq_num, builder)?;
    builder.u64(value.min_seq_age)?;
    builder.u32(value.min_seq_ledger_gap)?;
    write_list::<SignerKeyFormat>(value.extra_signers.as_slice(), MAX_EXTRA_SIGNERS, builder)
}

/// Reads preconditions.
#[tactic(auto, unfolding(crate::specs::Transactions::preconditions))]
pub fn read_preconditions(
    alloc: Global,
    cursor: &mut Cursor<'_>,
) -> Result<Preconditions, ReadFault>
    ensures { Reads cause_of result cursor.old cursor.new (spec.preconditions.read cursor.old) }
{
    let mut ahead = cursor.fork();
    let cond = match ahead.i32()? {
        PRECOND_NONE => Preconditions::None,
        PRECOND_TIME => Preconditions::Time(read_time_bounds(&mut ahead)?),
        PRECOND_V2 => Preconditions::V2(read_preconditions_v2(alloc, &mut ahead)?),
        _ => return Err(ReadFault::Xdr(cursor.fault(XdrKind::BadEnum))),
    };
    *cursor = ahead;
    Ok(cond)
}

/// Writes preconditions.
#[tactic(auto, unfolding(crate::specs::Transactions::preconditions))]
pub fn write_preconditions(value: &Preconditions, builder: &mut Builder) -> Result<(), AllocError>
    requires { spec.preconditions.within value.now }
    ensures { OnOk result (builder.new ≡ spec.preconditions.onto builder.old value.now) }
{
    match value {
        Preconditions::None => builder.i32(PRECOND_NONE),
        Preconditions::Time(bounds) => {
            builder.i32(PRECOND_TIME)?;
            write_time_bounds(bounds, builder)
        }
        Preconditions::V2(cond) => {
            builder.i32(PRECOND_V2)?;
            write_preconditions_v2(cond, builder)
        }
    }
}
