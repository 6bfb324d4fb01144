//! Offers.

ghost use Rattle.std.specs.Prelude.{◌≡◌, OnOk};
ghost use Rattle.xdr_core.specs.Position.{Reads, itself};
ghost use Rattle.xdr_tx.specs.Operations as spec;

use op_types::{CreatePassiveSellOfferOp, ManageBuyOfferOp, ManageSellOfferOp};
use std::alloc::AllocError;
use xdr_core::{Builder, Cursor, XdrFault};
use xdr_entries::{read_asset, read_price, write_asset, write_price};

/// Reads what makes, changes or removes an offer that sells.
#[tactic(auto, unfolding(crate::specs::Operations::manage_sell_offer_op))]
pub fn read_manage_sell_offer_op(cursor: &mut Cursor<'_>) -> Result<ManageSellOfferOp, XdrFault>
    ensures { Reads itself result cursor.old cursor.new (spec.manage_sell_offer_op.read cursor.old) }
{
    let mut ahead = cursor.fork();
    let selling = read_asset(&mut ahead)?;
    let buying = read_asset(&mut ahead)?;
    let amount = ahead.i64()?;
    let price = read_price(&mut ahead)?;
    let offer_id = ahead.i64()?;
    *cursor = ahead;
    Ok(ManageSellOfferOp {
        selling,
        buying,
        amount,
        price,
        offer_id,
    })
}

/// Writes what makes, changes or removes an offer that sells.
#[tactic(auto, unfolding(crate::specs::Operations::manage_sell_offer_op))]
pub fn write_manage_sell_offer_op(
    value: &ManageSellOfferOp,
    builder: &mut Builder,
) -> Result<(), AllocError>
    ensures { OnOk result (builder.new ≡ spec.manage_sell_offer_op.onto builder.old value.now) }
{
    write_asset(&value.selling, builder)?;
    write_asset(&value.buying, builder)?;
    builder.i64(value.amount)?;
    write_price(&value.price, builder)?;
    builder.i64(value.offer_id)
}

/// Reads what makes a passive offer.
#[tactic(auto, unfolding(crate::specs::Operations::create_passive_sell_offer_op))]
pub fn read_create_passive_sell_offer_op(
    cursor: &mut Cursor<'_>,
) -> Result<CreatePassiveSellOfferOp, XdrFault>
    ensures { Reads itself result cursor.old cursor.new (spec.create_passive_sell_offer_op.read cursor.old) }
{
    let mut ahead = cursor.fork();
    let selling = read_asset(&mut ahead)?;
    let buying = read_asset(&mut ahead)?;
    let amount = ahead.i64()?;
    let price = read_price(&mut ahead)?;
    *cursor = ahead;
    Ok(CreatePassiveSellOfferOp {
        selling,
        buying,
        amount,
        price,
    })
}

/// Writes what makes a passive offer.
#[tactic(auto, unfolding(crate::specs::Operations::create_passive_sell_offer_op))]
pub fn write_create_passive_sell_offer_op(
    value: &CreatePassiveSellOfferOp,
    builder: &mut Builder,
) -> Result<(), AllocError>
    ensures { OnOk result (builder.new ≡ spec.create_passive_sell_offer_op.onto builder.old value.now) }
{
    write_asset(&value.selling, builder)?;
    write_asset(&value.buying, builder)?;
    builder.i64(value.amount)?;
    write_price(&value.price, builder)
}

/// Reads what makes, changes or removes an offer that buys.
#[tactic(auto, unfolding(crate::specs::Operations::manage_buy_offer_op))]
pub fn read_manage_buy_offer_op(cursor: &mut Cursor<'_>) -> Result<ManageBuyOfferOp, XdrFault>
    ensures { Reads itself result cursor.old cursor.new (spec.manage_buy_offer_op.read cursor.old) }
{
    let mut ahead = cursor.fork();
    let selling = read_asset(&mut ahead)?;
    let buying = read_asset(&mut ahead)?;
    let buy_amount = ahead.i64()?;
    let price = read_price(&mut ahead)?;
    let offer_id = ahead.i64()?;
    *cursor = ahead;
    Ok(ManageBuyOfferOp {
        selling,
        buying,
        buy_amount,
        price,
        offer_id,
    })
}

/// Writes what makes, changes or removes an offer that buys.
#[tactic(auto, unfolding(crate::specs::Operations::manage_buy_offer_op))]
pub fn write_manage_buy_offer_op(
    value: &ManageBuyOfferOp,
    builder: &mut Builder,
) -> Result<(), AllocError>
    ensures { OnOk result (builder.new ≡ spec.manage_buy_offer_op.onto builder.old value.now) }
{
    write_asset(&value.selling, builder)?;
    write_asset(&value.buying, builder)?;
    builder.i64(value.buy_amount)?;
    write_price(&value.price, builder)?;
    builder.i64(value.offer_id)
}
