//! How far a trade has come.

ghost use Rattle.std.specs.Prelude.{◌≡◌, ◌≤ℤ◌, ◌<◌, pos, ◌+ℤ◌, ◌-ℤ◌, OnOk};
ghost use Rattle.reserve_rules.specs.Reserve.{greatest_i64};
ghost use Rattle.trade_cross.specs.Progressing as spec;

use crate::plan::{Left, Plan};
use item_list::ItemList;
use ledger_types::{ClaimAtom, OfferEntry};
use std::alloc::AllocError;

/// What was sent and received so far, each offer that was crossed, and what is left of the taker's bounds and of the
/// offers that it may cross.
#[derive(Drop)]
pub struct Progress {
    pub left: Left,
    pub crossings: u32,
    pub sheep: i64,
    pub wheat: i64,
    pub atoms: ItemList<ClaimAtom>,
}

/// What an offer gave and got.
fn atom_of(offer: &OfferEntry, plan: Plan) -> ClaimAtom
    ensures { result ≡ spec.atom_of_plan offer.now plan }
{
    ClaimAtom::OrderBook {
        seller_id: offer.seller_id,
        offer_id: offer.offer_id,
        asset_sold: offer.selling,
        amount_sold: plan.wheat,
        asset_bought: offer.buying,
        amount_bought: plan.sheep,
    }
}

/// Notes an offer that was crossed.
pub fn note(progress: &mut Progress, offer: &OfferEntry, plan: Plan) -> Result<(), AllocError>
    requires some { 0 < progress.old.crossings }
    requires fits { spec.DoesNoteFit progress.old plan }
    ensures { OnOk result (progress.new ≡ spec.noted progress.old offer.now plan) }
{
    progress.atoms.push(atom_of(offer, plan))?;
    progress.left = left_after(progress.left, plan);
    progress.sheep = more(progress.sheep, plan.sheep);
    progress.wheat = more(progress.wheat, plan.wheat);
    progress.crossings -= 1;
    Ok(())
}

/// What is left of the taker's bounds.
fn left_after(left: Left, plan: Plan) -> Left
    requires sheep { pos 0 ≤ℤ plan.sheep }
    requires wheat { pos 0 ≤ℤ plan.wheat }
    requires sheep_left { plan.sheep ≤ℤ left.sheep_send }
    requires wheat_left { plan.wheat ≤ℤ left.wheat_receive }
    ensures { result ≡ spec.left_less left plan }
{
    Left {
        sheep_send: less(left.sheep_send, plan.sheep),
        wheat_receive: less(left.wheat_receive, plan.wheat),
    }
}

/// A number less one that is at least 0 and not above it.
fn less(number: i64, n: i64) -> i64
    requires n { pos 0 ≤ℤ n }
    requires fits { n ≤ℤ number }
    ensures { result ≡ number -ℤ n }
{
    number - n
}

/// A number of at least 0 and some more.
fn more(number: i64, n: i64) -> i64
    requires number { pos 0 ≤ℤ number }
    requires n { pos 0 ≤ℤ n }
    requires fits { (number +ℤ n) ≤ℤ greatest_i64 }
    ensures { result ≡ number +ℤ n }
{
    number + n
}
