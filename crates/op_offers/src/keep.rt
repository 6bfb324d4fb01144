//! What is left of an offer after its trade.

ghost use Rattle.std.specs.Prelude.{◌≡◌, ◌≤ℤ◌, pos, unsigned_abs, IfOk, OnOk};
ghost use Rattle.ledger_types.specs.Prices.{IsPriced};
ghost use Rattle.entry_map.specs.Undo.{with_current};
ghost use Rattle.op_offers.specs.Calls as calls;
ghost use Rattle.op_offers.specs.Calls.{AreLimitsLow, IsSellable, asked_in};
ghost use Rattle.op_offers.specs.Selling as spec;

use crate::asked::Asked;
use crate::limits::capped;
use crate::source::{gives_at, source_gives, source_takes, takes_at};
use entry_map::{Base, Entries};
use entry_slots::{OfferSlot, sponsor_in, store_offer};
use ledger_types::OfferEntry;
use offer_exchange::adjust;
use sponsor_rules::discount_subentry;
use std::alloc::AllocError;
use trade_cross::{CrossEnd, acquire, pay, take};

/// Takes from the source what it sent, and gives it what it received, each at least 0.
pub fn settle_source<B: Base>(
    entries: &mut Entries<'_, B>,
    asked: &Asked,
    sheep: i64,
    wheat: i64,
) -> Result<(), AllocError>
    requires sheep { pos 0 ≤ℤ sheep }
    requires fits { calls.DoPaymentsFit (asked_in asked.now) sheep wheat entries.old.current }
    ensures { OnOk result (
        entries.new ≡
        with_current entries.old (calls.map_after_settling (asked_in asked.now) sheep wheat entries.old.current)) }
{
    let seller_id = &asked.slot.offer.seller_id;
    take(entries, seller_id, gives_at(asked), sheep)?;
    pay(entries, seller_id, takes_at(asked), wheat)
}

/// How much is still offered, by what the source can give and take, each at least 0.
fn left_within(asked: &Asked, sheep: i64, wheat: i64, gives: i64, takes: i64) -> i64
    requires limits { AreLimitsLow asked.now }
    requires priced { IsPriced asked.now.slot.offer.price }
    requires sheep { pos 0 ≤ℤ sheep }
    requires wheat { pos 0 ≤ℤ wheat }
    requires gives { pos 0 ≤ℤ gives }
    requires takes { pos 0 ≤ℤ takes }
    ensures { result ≡ pos (spec.left_within (asked_in asked.now) (unsigned_abs sheep) (unsigned_abs wheat)
        (unsigned_abs gives) (unsigned_abs takes)) }
{
    let send = capped(asked.sells, sheep, gives);
    let receive = capped(asked.buys, wheat, takes);
    adjust(asked.slot.offer.price, send, receive)
}

/// How much is still offered, at least 0, after a trade that moved so much, each at least 0.
pub fn amount_left<B: Base>(
    entries: &Entries<'_, B>,
    base_reserve: u32,
    asked: &Asked,
    sheep: i64,
    wheat: i64,
    end: CrossEnd,
) -> Result<i64, AllocError>
    requires limits { AreLimitsLow asked.now }
    requires sellable { IsSellable (asked_in asked.now) entries.now.current }
    requires sheep { pos 0 ≤ℤ sheep }
    requires wheat { pos 0 ≤ℤ wheat }
    ensures { IfOk result (λ amount. amount ≡ pos (
        spec.amount_left base_reserve (asked_in asked.now) (unsigned_abs sheep) (unsigned_abs wheat) end
        entries.now.current)) }
{
    if end == CrossEnd::Converted {
        return Ok(0);
    }
    let gives = source_gives(entries, base_reserve, asked)?;
    let takes = source_takes(entries, asked)?;
    Ok(left_within(asked, sheep, wheat, gives, takes))
}

/// Puts the offer with an amount, and binds what it has.
fn keep_some<B: Base>(
    entries: &mut Entries<'_, B>,
    asked: &Asked,
    amount: i64,
) -> Result<(), AllocError>
    requires priced { IsPriced asked.now.slot.offer.price }
    requires amount { pos 1 ≤ℤ amount }
    requires fits { calls.DoesRestFit (asked_in asked.now) (unsigned_abs amount) entries.old.current }
    ensures { OnOk result (
        entries.new ≡
        with_current entries.old
        (spec.map_after_keeping (asked_in asked.now) (unsigned_abs amount) entries.old.current)) }
{
    let offer = OfferEntry {
        amount,
        ..asked.slot.offer
    };
    store_offer(
        entries,
        OfferSlot {
            offer,
            ..asked.slot
        },
    )?;
    acquire(entries, &offer)
}

/// Keeps an offer of so much, at least 0. One of nothing isn't kept, and its reserve is freed.
pub fn keep<B: Base>(
    entries: &mut Entries<'_, B>,
    asked: &Asked,
    amount: i64,
) -> Result<(), AllocError>
    requires priced { IsPriced asked.now.slot.offer.price }
    requires amount { pos 0 ≤ℤ amount }
    requires fits { calls.DoesRestFit (asked_in asked.now) (unsigned_abs amount) entries.old.current }
    ensures { OnOk result (
        entries.new ≡
        with_current entries.old
        (spec.map_after_keeping (asked_in asked.now) (unsigned_abs amount) entries.old.current)) }
{
    if amount == 0 {
        let sponsor = sponsor_in(&asked.slot.ext);
        return discount_subentry(entries, 1, &asked.slot.offer.seller_id, &sponsor);
    }
    keep_some(entries, asked, amount)
}
