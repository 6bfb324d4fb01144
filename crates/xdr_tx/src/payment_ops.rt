//! Payments.

ghost use Rattle.std.specs.Prelude.{◌≡◌, OnOk};
ghost use Rattle.xdr_core.specs.Position.{Reads, itself};
ghost use Rattle.xdr_core.specs.ReadFault.{cause_of};
ghost use Rattle.xdr_tx.specs.Operations as spec;

use op_types::{PathPaymentStrictReceiveOp, PathPaymentStrictSendOp, PaymentOp};
use std::alloc::{AllocError, Global};
use xdr_core::{Builder, Cursor, ReadFault, XdrFault, read_list, write_list};
use xdr_entries::{AssetFormat, read_asset, read_muxed_account, write_asset, write_muxed_account};

/// The most assets between the two of a path (PathPaymentStrictReceiveOp in Stellar-transaction.x).
const MAX_PATH_LEN: u32 = 5;

/// Reads a payment.
#[tactic(auto, unfolding(crate::specs::Operations::payment_op))]
pub fn read_payment_op(cursor: &mut Cursor<'_>) -> Result<PaymentOp, XdrFault>
    ensures { Reads itself result cursor.old cursor.new (spec.payment_op.read cursor.old) }
{
    let mut ahead = cursor.fork();
    let destination = read_muxed_account(&mut ahead)?;
    let asset = read_asset(&mut ahead)?;
    let amount = ahead.i64()?;
    *cursor = ahead;
    Ok(PaymentOp {
        destination,
        asset,
        amount,
    })
}

/// Writes a payment.
#[tactic(auto, unfolding(crate::specs::Operations::payment_op))]
pub fn write_payment_op(value: &PaymentOp, builder: &mut Builder) -> Result<(), AllocError>
    ensures { OnOk result (builder.new ≡ spec.payment_op.onto builder.old value.now) }
{
    write_muxed_account(&value.destination, builder)?;
    write_asset(&value.asset, builder)?;
    builder.i64(value.amount)
}

/// Reads a payment along a path whose end is fixed.
#[tactic(auto, unfolding(crate::specs::Operations::path_payment_strict_receive_op))]
pub fn read_path_payment_strict_receive_op(
    alloc: Global,
    cursor: &mut Cursor<'_>,
) -> Result<PathPaymentStrictReceiveOp, ReadFault>
    ensures { Reads cause_of result cursor.old cursor.new (spec.path_payment_strict_receive_op.read cursor.old) }
{
    let mut ahead = cursor.fork();
    let send_asset = read_asset(&mut ahead)?;
    let send_max = ahead.i64()?;
    let destination = read_muxed_account(&mut ahead)?;
    let dest_asset = read_asset(&mut ahead)?;
    let dest_amount = ahead.i64()?;
    let path = read_list::<AssetFormat>(alloc, MAX_PATH_LEN, &mut ahead)?;
    *cursor = ahead;
    Ok(PathPaymentStrictReceiveOp {
        send_asset,
        send_max,
        destination,
        dest_asset,
        dest_amount,
        path,
    })
}

/// Writes a payment along a path whose end is fixed.
#[tactic(auto, unfolding(crate::specs::Operations::path_payment_strict_receive_op))]
pub fn write_path_payment_strict_receive_op(
    value: &PathPaymentStrictReceiveOp,
    builder: &mut Builder,
) -> Result<(), AllocError>
    requires { spec.path_payment_strict_receive_op.within value.now }
    ensures { OnOk result (builder.new ≡ spec.path_payment_strict_receive_op.onto builder.old value.now) }
{
    write_asset(&value.send_asset, builder)?;
    builder.i64(value.send_max)?;
    write_muxed_account(&value.destination, builder)?;
    write_asset(&value.dest_asset, builder)?;
    builder.i64(value.dest_amount)?;
    write_list::<AssetFormat>(value.path.as_slice(), MAX_PATH_LEN, builder)
}

/// Reads a payment along a path whose start is fixed.
#[tactic(auto, unfolding(crate::specs::Operations::path_payment_strict_send_op))]
pub fn read_path_payment_strict_send_op(
    alloc: Global,
    cursor: &mut Cursor<'_>,
) -> Result<PathPaymentStrictSendOp, ReadFault>
    ensures { Reads cause_of result cursor.old cursor.new (spec.path_payment_strict_send_op.read cursor.old) }
{
    let mut ahead = cursor.fork();
    let send_asset = read_asset(&mut ahead)?;
    let send_amount = ahead.i64()?;
    let destination = read_muxed_account(&mut ahead)?;
    let dest_asset = read_asset(&mut ahead)?;
    let dest_min = ahead.i64()?;
    let path = read_list::<AssetFormat>(alloc, MAX_PATH_LEN, &mut ahead)?;
    *cursor = ahead;
    Ok(PathPaymentStrictSendOp {
        send_asset,
        send_amount,
        destination,
        dest_asset,
        dest_min,
        path,
    })
}

/// Writes a payment along a path whose start is fixed.
#[tactic(auto, unfolding(crate::specs::Operations::path_payment_strict_send_op))]
pub fn write_path_payment_strict_send_op(
    value: &PathPaymentStrictSendOp,
    builder: &mut Builder,
) -> Result<(), AllocError>
    requires { spec.path_payment_strict_send_op.within value.now }
    ensures { OnOk result (builder.new ≡ spec.path_payment_strict_send_op.onto builder.old value.now) }
{
    write_asset(&value.send_asset, builder)?;
    builder.i64(value.send_amount)?;
    write_muxed_account(&value.destination, builder)?;
    write_asset(&value.dest_asset, builder)?;
    builder.i64(value.dest_min)?;
    write_list::<AssetFormat>(value.path.as_slice(), MAX_PATH_LEN, builder)
}
