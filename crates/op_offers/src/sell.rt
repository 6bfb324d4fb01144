//! An offer that is out of its book is sold.

ghost use Rattle.std.specs.Prelude.{◌≡◌, ◌≤ℤ◌, pos, IfOk};
ghost use Rattle.ledger_types.specs.Prices.{IsPriced};
ghost use Rattle.trade_cross.specs.Crossing.{Crossing};
ghost use Rattle.trade_cross.specs.Progressing.{IsCrossing};
ghost use Rattle.op_offers.specs.Calls as calls;
ghost use Rattle.op_offers.specs.Calls.{AreLimitsLow, IsSellable, asked_in};
ghost use Rattle.op_offers.specs.Selling as spec;

use crate::asked::Asked;
use crate::cross::cross;
use crate::fault::OfferFault;
use crate::keep::{amount_left, keep, settle_source};
use crate::wanted::wanted_fault;
use entry_map::{Base, Entries};
use item_list::ItemList;
use ledger_types::ClaimAtom;
use sponsor_rules::Ctx;
use std::alloc::AllocError;
use trade_cross::{CrossEnd, Crossed};

/// What a sale yielded: each offer that was crossed, in order, and how much is still offered, at least 0.
#[derive(Drop)]
pub struct Sold {
    pub atoms: ItemList<ClaimAtom>,
    pub amount: i64,
}

/// Why an operation fails whose trade ended so, if it does.
fn end_fault(end: CrossEnd) -> Option<OfferFault>
    ensures { result ≡ calls.end_fault end }
{
    match end {
        CrossEnd::CrossSelf => Some(OfferFault::CrossSelf),
        CrossEnd::TooMany => Some(OfferFault::TooMany),
        CrossEnd::Converted | CrossEnd::Partial | CrossEnd::BadPrice => None,
    }
}

/// Settles a trade with the source, and keeps what is left of the offer.
fn keep_rest<B: Base>(
    entries: &mut Entries<'_, B>,
    base_reserve: u32,
    asked: &Asked,
    crossed: Crossed,
) -> Result<Sold, AllocError>
    requires limits { AreLimitsLow asked.now }
    requires sheep { pos 0 ≤ℤ crossed.sheep }
    requires wheat { pos 0 ≤ℤ crossed.wheat }
    requires fits { calls.DoPaymentsFit (asked_in asked.now) crossed.sheep crossed.wheat entries.old.current }
    requires sellable { IsSellable (asked_in asked.now) (
        calls.map_after_settling (asked_in asked.now) crossed.sheep crossed.wheat entries.old.current) }
    ensures { (done : Crossing) → IsCrossing crossed done → entries.old.current ≡ done.entries
        → IfOk result (λ sold. calls.IsSold sold entries.old entries.new (
        spec.kept base_reserve (asked_in asked.now) done (spec.settled (asked_in asked.now) done))) }
{
    let Crossed {
        sheep,
        wheat,
        atoms,
        end,
    } = crossed;
    settle_source(entries, asked, sheep, wheat)?;
    let amount = amount_left(entries, base_reserve, asked, sheep, wheat, end)?;
    keep(entries, asked, amount)?;
    Ok(Sold { atoms, amount })
}

/// Sells an offer that is counted and out of its book: it crosses the offers of the other side, and what is left of it
/// is kept. Where it answers a fault, the map has to be undone.
#[tactic(auto, unfolding(crate::specs::Selling::sold))]
pub fn sell<B: Base>(
    entries: &mut Entries<'_, B>,
    ctx: &Ctx,
    asked: &Asked,
) -> Result<Sold, OfferFault>
    requires limits { AreLimitsLow asked.now }
    requires sellable { IsSellable (asked_in asked.now) entries.old.current }
    ensures { calls.IsSale result entries.old entries.new (
        spec.sold ctx.now.base_reserve (asked_in asked.now) entries.old.current) }
{
    if let Some(fault) = wanted_fault(entries, ctx.base_reserve, asked)? {
        return Err(fault);
    }
    let crossed = cross(entries, ctx, asked)?;
    if let Some(fault) = end_fault(crossed.end) {
        return Err(fault);
    }
    Ok(keep_rest(entries, ctx.base_reserve, asked, crossed)?)
}
