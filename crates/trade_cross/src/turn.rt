//! What comes next in a trade.

ghost use Rattle.std.specs.Prelude.{◌≡◌, IfOk};
ghost use Rattle.entry_map.specs.Book.{price_cmp, AreOffersSound};
ghost use Rattle.offer_book.specs.Book as book;
ghost use Rattle.trade_cross.specs.Crossable.{IsCrossable};
ghost use Rattle.trade_cross.specs.Crossing as spec;
ghost use Rattle.trade_cross.specs.Plans.{AreLeft, left_in};

use crate::crossed::CrossEnd;
use crate::plan::Left;
use crate::trade::Trade;
use entry_map::{Base, Entries};
use ledger_types::{OfferEntry, Price};
use offer_book::best;
use std::alloc::AllocError;
use std::cmp::Ordering;

/// What comes next: the end, or an offer that is crossed.
#[derive(Clone, Copy)]
pub enum Turn {
    Ends(CrossEnd),
    Meets(OfferEntry),
}

/// What comes next in a trade, with so much left of the taker's bounds.
#[tactic(auto, unfolding(crate::specs::Crossing::turn))]
pub fn next_turn<B: Base>(
    entries: &Entries<'_, B>,
    trade: &Trade,
    left: Left,
) -> Result<Turn, AllocError>
    requires crossable { IsCrossable entries.now.current }
    requires left { AreLeft left }
    ensures { IfOk result (λ turn. turn ≡ spec.turn trade.now (left_in left) entries.now.current) }
{
    if is_used_up(left) {
        return Ok(Turn::Ends(CrossEnd::Converted));
    }
    match best_offer(entries, trade)? {
        None => Ok(Turn::Ends(CrossEnd::Partial)),
        Some(offer) => Ok(turn_at(trade, offer)),
    }
}

/// The best offer of the pair.
fn best_offer<B: Base>(
    entries: &Entries<'_, B>,
    trade: &Trade,
) -> Result<Option<OfferEntry>, AllocError>
    requires { AreOffersSound entries.now.current }
    ensures { IfOk result (λ offer. offer ≡ book.best entries.now.current trade.now.wheat trade.now.sheep) }
{
    best(entries, &trade.wheat, &trade.sheep)
}

/// Whether a bound is used up.
fn is_used_up(left: Left) -> bool
    requires { AreLeft left }
    ensures { result ≡ spec.is_used_up (left_in left) }
{
    left.sheep_send == 0 || left.wheat_receive == 0
}

/// What comes next where this offer is the best one.
fn turn_at(trade: &Trade, offer: OfferEntry) -> Turn
    ensures { result ≡ spec.turn_with trade.now offer }
{
    if is_too_dear(trade, &offer) {
        return Turn::Ends(CrossEnd::BadPrice);
    }
    if offer.seller_id.0 == trade.taker.0 {
        return Turn::Ends(CrossEnd::CrossSelf);
    }
    Turn::Meets(offer)
}

/// Whether an offer costs more than the taker accepts. A passive one doesn't accept the greatest price itself.
fn is_too_dear(trade: &Trade, offer: &OfferEntry) -> bool
    ensures { result ≡ spec.is_too_dear trade.now offer.now trade.now.greatest }
{
    match trade.greatest {
        None => false,
        Some(greatest) => match price_order(greatest, offer.price) {
            Ordering::Less => true,
            Ordering::Equal => trade.passive,
            Ordering::Greater => false,
        },
    }
}

/// The order of two prices as fractions.
fn price_order(a: Price, b: Price) -> Ordering
    ensures { result ≡ price_cmp a b }
{
    let left = a.n.unsigned_abs() as u64 * b.d.unsigned_abs() as u64;
    let right = b.n.unsigned_abs() as u64 * a.d.unsigned_abs() as u64;
    left.cmp(&right)
}
