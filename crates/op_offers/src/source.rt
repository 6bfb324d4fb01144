//! What the source can give and take of what its offer sells and buys.

ghost use Rattle.std.specs.Prelude.{◌≡◌, pos, IfOk};
ghost use Rattle.trade_cross.specs.Holdings as holdings;
ghost use Rattle.trade_cross.specs.Locations.{location_key};
ghost use Rattle.op_offers.specs.Calls.{IsSellable, asked_in};
ghost use Rattle.op_offers.specs.Selling.{source_gives_at, source_takes_at};

use crate::asked::Asked;
use entry_map::{Base, Entries};
use std::alloc::AllocError;
use trade_cross::{Location, location_of, most_given, most_taken};

/// Where the source has what it sells.
pub fn gives_at(asked: &Asked) -> Location
    ensures { location_key asked.now.slot.offer.seller_id result ≡ source_gives_at (asked_in asked.now) }
{
    location_of(&asked.slot.offer.seller_id, &asked.slot.offer.selling)
}

/// Where the source has what it buys.
pub fn takes_at(asked: &Asked) -> Location
    ensures { location_key asked.now.slot.offer.seller_id result ≡ source_takes_at (asked_in asked.now) }
{
    location_of(&asked.slot.offer.seller_id, &asked.slot.offer.buying)
}

/// What the source can give of what it sells, at least 0.
pub fn source_gives<B: Base>(
    entries: &Entries<'_, B>,
    base_reserve: u32,
    asked: &Asked,
) -> Result<i64, AllocError>
    requires { IsSellable (asked_in asked.now) entries.now.current }
    ensures { IfOk result (λ most. most ≡ pos (
        holdings.most_given base_reserve entries.now.current (source_gives_at (asked_in asked.now)))) }
{
    most_given(
        entries,
        base_reserve,
        &asked.slot.offer.seller_id,
        gives_at(asked),
    )
}

/// What the source can take of what it buys, at least 0.
pub fn source_takes<B: Base>(entries: &Entries<'_, B>, asked: &Asked) -> Result<i64, AllocError>
    requires { IsSellable (asked_in asked.now) entries.now.current }
    ensures { IfOk result (λ most. most ≡ pos (
        holdings.most_taken entries.now.current (source_takes_at (asked_in asked.now)))) }
{
    most_taken(entries, &asked.slot.offer.seller_id, takes_at(asked))
}
