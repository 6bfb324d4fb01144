//! What offers answer.

ghost use Rattle.std.specs.Prelude.{◌≡◌, OnOk};
ghost use Rattle.xdr_core.specs.Position.{Reads, itself};
ghost use Rattle.xdr_core.specs.ReadFault.{cause_of};
ghost use Rattle.xdr_results.specs.Answers as spec;

use crate::claim_atom::ClaimAtomFormat;
use crate::coded::plain_value;
use op_types::{Coded, ManageOfferEffect, ManageOfferResult, ManageOfferSuccess};
use std::alloc::{AllocError, Global};
use xdr_core::{Builder, Cursor, ReadFault, XdrFault, XdrKind, read_list, write_list};
use xdr_entries::{read_offer_entry, write_offer_entry};

/// MANAGE_SELL_OFFER_SUCCESS (Stellar-transaction.x).
const MANAGE_SELL_OFFER_SUCCESS: i32 = 0;

/// MANAGE_OFFER_CREATED (Stellar-transaction.x).
const MANAGE_OFFER_CREATED: i32 = 0;

/// MANAGE_OFFER_UPDATED (Stellar-transaction.x).
const MANAGE_OFFER_UPDATED: i32 = 1;

/// MANAGE_OFFER_DELETED (Stellar-transaction.x).
const MANAGE_OFFER_DELETED: i32 = 2;

/// Reads what became of an offer.
#[tactic(auto, unfolding(crate::specs::Answers::manage_offer_effect))]
pub fn read_manage_offer_effect(cursor: &mut Cursor<'_>) -> Result<ManageOfferEffect, XdrFault>
    ensures { Reads itself result cursor.old cursor.new (spec.manage_offer_effect.read cursor.old) }
{
    let mut ahead = cursor.fork();
    let effect = match ahead.i32()? {
        MANAGE_OFFER_CREATED => ManageOfferEffect::Created(read_offer_entry(&mut ahead)?),
        MANAGE_OFFER_UPDATED => ManageOfferEffect::Updated(read_offer_entry(&mut ahead)?),
        MANAGE_OFFER_DELETED => ManageOfferEffect::Deleted,
        _ => return Err(cursor.fault(XdrKind::BadEnum)),
    };
    *cursor = ahead;
    Ok(effect)
}

/// Writes what became of an offer.
#[tactic(auto, unfolding(crate::specs::Answers::manage_offer_effect))]
pub fn write_manage_offer_effect(
    value: &ManageOfferEffect,
    builder: &mut Builder,
) -> Result<(), AllocError>
    ensures { OnOk result (builder.new ≡ spec.manage_offer_effect.onto builder.old value.now) }
{
    match value {
        ManageOfferEffect::Created(offer) => {
            builder.i32(MANAGE_OFFER_CREATED)?;
            write_offer_entry(offer, builder)
        }
        ManageOfferEffect::Updated(offer) => {
            builder.i32(MANAGE_OFFER_UPDATED)?;
            write_offer_entry(offer, builder)
        }
        ManageOfferEffect::Deleted => builder.i32(MANAGE_OFFER_DELETED),
    }
}

/// Reads what an offer took, and what is left of it.
#[tactic(auto, unfolding(crate::specs::Answers::manage_offer_success))]
pub fn read_manage_offer_success(
    alloc: Global,
    cursor: &mut Cursor<'_>,
) -> Result<ManageOfferSuccess, ReadFault>
    ensures { Reads cause_of result cursor.old cursor.new (spec.manage_offer_success.read cursor.old) }
{
    let mut ahead = cursor.fork();
    let offers_claimed = read_list::<ClaimAtomFormat>(alloc, u32::MAX, &mut ahead)?;
    let offer = read_manage_offer_effect(&mut ahead)?;
    *cursor = ahead;
    Ok(ManageOfferSuccess {
        offers_claimed,
        offer,
    })
}

/// Writes what an offer took, and what is left of it.
#[tactic(auto, unfolding(crate::specs::Answers::manage_offer_success))]
pub fn write_manage_offer_success(
    value: &ManageOfferSuccess,
    builder: &mut Builder,
) -> Result<(), AllocError>
    requires { spec.manage_offer_success.within value.now }
    ensures { OnOk result (builder.new ≡ spec.manage_offer_success.onto builder.old value.now) }
{
    write_list::<ClaimAtomFormat>(value.offers_claimed.as_slice(), u32::MAX, builder)?;
    write_manage_offer_effect(&value.offer, builder)
}

/// Reads what MANAGE_SELL_OFFER, CREATE_PASSIVE_SELL_OFFER and MANAGE_BUY_OFFER answer.
#[tactic(auto, unfolding(crate::specs::Answers::manage_offer_result))]
pub fn read_manage_offer_result(
    alloc: Global,
    cursor: &mut Cursor<'_>,
) -> Result<ManageOfferResult, ReadFault>
    ensures { Reads cause_of result cursor.old cursor.new (spec.manage_offer_result.read cursor.old) }
{
    let mut ahead = cursor.fork();
    let answer = match ahead.i32()? {
        MANAGE_SELL_OFFER_SUCCESS => ManageOfferResult::Success(read_manage_offer_success(
            alloc, &mut ahead,
        )?),
        code => plain_value(code, cursor)?,
    };
    *cursor = ahead;
    Ok(answer)
}

/// Writes what MANAGE_SELL_OFFER, CREATE_PASSIVE_SELL_OFFER and MANAGE_BUY_OFFER answer.
#[tactic(auto, unfolding(crate::specs::Answers::manage_offer_result))]
pub fn write_manage_offer_result(
    value: &ManageOfferResult,
    builder: &mut Builder,
) -> Result<(), AllocError>
    requires { spec.manage_offer_result.within value.now }
    ensures { OnOk result (builder.new ≡ spec.manage_offer_result.onto builder.old value.now) }
{
    builder.i32(value.code())?;
    match value {
        ManageOfferResult::Success(inner) => write_manage_offer_success(inner, builder),
        _ => Ok(()),
    }
}
