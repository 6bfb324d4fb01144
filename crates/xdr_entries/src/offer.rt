//! Offers.

ghost use Rattle.std.specs.Prelude.{◌≡◌, OnOk};
ghost use Rattle.xdr_core.specs.Position.{Reads, itself};
ghost use Rattle.xdr_entries.specs.Entries as spec;

use crate::asset::{read_asset, write_asset};
use crate::ids::{read_account_id, write_account_id};
use crate::price::{read_price, write_price};
use ledger_types::OfferEntry;
use std::alloc::AllocError;
use xdr_core::{Builder, Cursor, XdrFault};

/// Reads an offer.
#[tactic(auto, unfolding(crate::specs::Entries::offer_entry))]
pub fn read_offer_entry(cursor: &mut Cursor<'_>) -> Result<OfferEntry, XdrFault>
    ensures { Reads itself result cursor.old cursor.new (spec.offer_entry.read cursor.old) }
{
    let mut ahead = cursor.fork();
    let offer = OfferEntry {
        seller_id: read_account_id(&mut ahead)?,
        offer_id: ahead.i64()?,
        selling: read_asset(&mut ahead)?,
        buying: read_asset(&mut ahead)?,
        amount: ahead.i64()?,
        price: read_price(&mut ahead)?,
        flags: ahead.u32()?,
    };
    ahead.tag(0)?;
    *cursor = ahead;
    Ok(offer)
}

/// Writes an offer.
#[tactic(auto, unfolding(crate::specs::Entries::offer_entry))]
pub fn write_offer_entry(value: &OfferEntry, builder: &mut Builder) -> Result<(), AllocError>
    ensures { OnOk result (builder.new ≡ spec.offer_entry.onto builder.old value.now) }
{
    write_account_id(&value.seller_id, builder)?;
    builder.i64(value.offer_id)?;
    write_asset(&value.selling, builder)?;
    write_asset(&value.buying, builder)?;
    builder.i64(value.amount)?;
    write_price(&value.price, builder)?;
    builder.u32(value.flags)?;
    builder.tag(0)
}
