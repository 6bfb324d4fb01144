//! What is wanted of a trade, and whether the source can give and take it.

ghost use Rattle.std.specs.Prelude.{◌≡◌, ◌≤ℤ◌, ◌||◌, nat_eq, nat_lt, pos, unsigned_abs, IfOk};
ghost use Rattle.entry_slots.specs.Tests.{first_fault};
ghost use Rattle.op_offers.specs.Calls.{AreLimitsLow, IsSellable, asked_in};
ghost use Rattle.op_offers.specs.Selling as spec;

use crate::asked::Asked;
use crate::fault::OfferFault;
use crate::limits::limit_of;
use crate::source::{gives_at, source_takes};
use entry_map::{Base, Entries};
use offer_exchange::wanted;
use std::alloc::AllocError;
use trade_cross::is_short;

/// Whether there is no room, or less than is wanted; each is at least 0.
fn is_too_little(room: i64, sheep: i64) -> bool
    requires room { pos 0 ≤ℤ room }
    requires sheep { pos 0 ≤ℤ sheep }
    ensures { result ≡ (nat_eq (unsigned_abs room) 0 || nat_lt (unsigned_abs room) (unsigned_abs sheep)) }
{
    room == 0 || room < sheep
}

/// Why the source can't give or take what is wanted, if it can't.
pub fn wanted_fault<B: Base>(
    entries: &Entries<'_, B>,
    base_reserve: u32,
    asked: &Asked,
) -> Result<Option<OfferFault>, AllocError>
    requires limits { AreLimitsLow asked.now }
    requires sellable { IsSellable (asked_in asked.now) entries.now.current }
    ensures { IfOk result (λ fault. fault ≡ first_fault (
        spec.wanted_tests base_reserve (asked_in asked.now) entries.now.current)) }
{
    let price = asked.slot.offer.price;
    let all = wanted(price, limit_of(asked.sells), limit_of(asked.buys));
    let room = source_takes(entries, asked)?;
    if is_too_little(room, all.buying) {
        return Ok(Some(OfferFault::LineFull));
    }
    let seller_id = &asked.slot.offer.seller_id;
    if is_short(
        entries,
        base_reserve,
        seller_id,
        gives_at(asked),
        all.selling,
    )? {
        return Ok(Some(OfferFault::Underfunded));
    }
    Ok(None)
}
