//! What an account can give and take of an asset at most.

ghost use Rattle.std.specs.Prelude.{◌≡◌, ◌≤◌, ◌^◌, ◌≤ℤ◌, pos, neg_ℤ, ◌+ℤ◌, Some, IfOk};
ghost use Rattle.ledger_types.specs.declared.key.LedgerKey.TheVariants as key;
ghost use Rattle.entry_slots.specs.AccountFacts.{facts_at};
ghost use Rattle.entry_slots.specs.Lines.{line_at};
ghost use Rattle.offer_exchange.specs.Exchange.{unlimited};
ghost use Rattle.reserve_rules.specs.Reserve.{facts_available, line_available, line_room, IsLineInRange};
ghost use Rattle.trade_cross.specs.Holdings.{at_least_nothing};
ghost use Rattle.trade_cross.specs.Locations.{location_key};
ghost use Rattle.trade_cross.specs.Sides as spec;

use crate::location::Location;
use entry_map::{Base, Entries};
use entry_slots::{AccountFacts, load_facts, load_line};
use ledger_types::{AccountId, TrustLineAsset, TrustLineEntry};
use reserve_rules::{facts_available, line_available, line_room};
use std::alloc::AllocError;

/// A number as a bound of a trade: less than nothing counts as nothing.
fn bound_of(number: i128) -> i64
    requires { at_least_nothing number ≤ unlimited }
    ensures { result ≡ pos (at_least_nothing number) }
{
    if number < 0 { 0 } else { number as i64 }
}

/// A number and what is released, as a bound of a trade.
fn with_released(number: i128, released: i64) -> i64
    requires above { neg_ℤ (pos (2 ^ 68)) ≤ℤ number }
    requires below { number ≤ℤ pos (2 ^ 68) }
    requires fits { at_least_nothing (number +ℤ released) ≤ unlimited }
    ensures { result ≡ pos (at_least_nothing (number +ℤ released)) }
{
    bound_of(number + released as i128)
}

/// What an account can give of an asset, once it is released from so much that it would give, at least 0.
pub fn most_given_with<B: Base>(
    entries: &Entries<'_, B>,
    base_reserve: u32,
    id: &AccountId,
    location: Location,
    released: i64,
) -> Result<i64, AllocError>
    requires range { spec.IsInRangeAt entries.now.current (location_key id.now location) }
    requires fits { spec.given_with base_reserve released entries.now.current (location_key id.now location)
        ≤ unlimited }
    ensures { IfOk result (λ most.
        most ≡ pos (spec.given_with base_reserve released entries.now.current (location_key id.now location))) }
{
    match location {
        Location::Account => account_gives(entries, base_reserve, id, released),
        Location::Line(held) => line_gives(entries, id, &held, released),
        Location::Nowhere => Ok(i64::MAX),
    }
}

/// What an account can give of its lumens.
fn account_gives<B: Base>(
    entries: &Entries<'_, B>,
    base_reserve: u32,
    id: &AccountId,
    released: i64,
) -> Result<i64, AllocError>
    requires { spec.facts_give_with base_reserve released (facts_at entries.now.current id.now) ≤ unlimited }
    ensures { IfOk result (λ most.
        most ≡ pos (spec.facts_give_with base_reserve released (facts_at entries.now.current id.now))) }
{
    match load_facts(entries, id)? {
        None => Ok(0),
        Some(facts) => Ok(facts_give(facts, base_reserve, released)),
    }
}

/// What an account can give of its lumens, by its facts.
fn facts_give(facts: AccountFacts, base_reserve: u32, released: i64) -> i64
    requires { at_least_nothing (facts_available facts base_reserve +ℤ released) ≤ unlimited }
    ensures { result ≡ pos (at_least_nothing (facts_available facts base_reserve +ℤ released)) }
{
    with_released(facts_available(&facts, base_reserve), released)
}

/// What an account can give of a line.
fn line_gives<B: Base>(
    entries: &Entries<'_, B>,
    id: &AccountId,
    held: &TrustLineAsset,
    released: i64,
) -> Result<i64, AllocError>
    requires range { spec.IsInRangeAt entries.now.current (Some (key.TrustLine id.now held.now)) }
    requires fits { spec.line_gives_with released (line_at entries.now.current id.now held.now) ≤ unlimited }
    ensures { IfOk result (λ most.
        most ≡ pos (spec.line_gives_with released (line_at entries.now.current id.now held.now))) }
{
    match load_line(entries, id, held)? {
        None => Ok(0),
        Some(slot) => Ok(a_line_gives(&slot.line, released)),
    }
}

/// What can be given of a line that exists.
fn a_line_gives(line: &TrustLineEntry, released: i64) -> i64
    requires range { IsLineInRange line.now }
    requires fits { at_least_nothing (line_available line.now +ℤ released) ≤ unlimited }
    ensures { result ≡ pos (at_least_nothing (line_available line.now +ℤ released)) }
{
    bound_of(line_available(line) as i128 + released as i128)
}

/// What an account can take of an asset, once it is released from so much that it would take, at least 0.
pub fn most_taken_with<B: Base>(
    entries: &Entries<'_, B>,
    id: &AccountId,
    location: Location,
    released: i64,
) -> Result<i64, AllocError>
    requires range { spec.IsInRangeAt entries.now.current (location_key id.now location) }
    requires fits { spec.taken_with released entries.now.current (location_key id.now location) ≤ unlimited }
    ensures { IfOk result (λ most.
        most ≡ pos (spec.taken_with released entries.now.current (location_key id.now location))) }
{
    match location {
        Location::Account => account_takes(entries, id, released),
        Location::Line(held) => line_takes(entries, id, &held, released),
        Location::Nowhere => Ok(i64::MAX),
    }
}

/// What an account can take of lumens.
fn account_takes<B: Base>(
    entries: &Entries<'_, B>,
    id: &AccountId,
    released: i64,
) -> Result<i64, AllocError>
    requires { spec.facts_take_with released (facts_at entries.now.current id.now) ≤ unlimited }
    ensures { IfOk result (λ most.
        most ≡ pos (spec.facts_take_with released (facts_at entries.now.current id.now))) }
{
    match load_facts(entries, id)? {
        None => Ok(0),
        Some(facts) => Ok(facts_take(&facts, released)),
    }
}

/// What an account can take of lumens, by its facts.
fn facts_take(facts: &AccountFacts, released: i64) -> i64
    requires { at_least_nothing (spec.facts_room facts.now +ℤ released) ≤ unlimited }
    ensures { result ≡ pos (at_least_nothing (spec.facts_room facts.now +ℤ released)) }
{
    with_released(facts_room(facts), released)
}

/// The greatest balance of an account, less its present one and what its offers would take.
fn facts_room(facts: &AccountFacts) -> i128
    ensures value { result ≡ spec.facts_room facts.now }
    ensures above { neg_ℤ (pos (2 ^ 68)) ≤ℤ result }
    ensures below { result ≤ℤ pos (2 ^ 68) }
{
    i64::MAX as i128 - facts.balance as i128 - facts.liabilities.buying as i128
}

/// What an account can take in a line.
fn line_takes<B: Base>(
    entries: &Entries<'_, B>,
    id: &AccountId,
    held: &TrustLineAsset,
    released: i64,
) -> Result<i64, AllocError>
    requires range { spec.IsInRangeAt entries.now.current (Some (key.TrustLine id.now held.now)) }
    requires fits { spec.line_takes_with released (line_at entries.now.current id.now held.now) ≤ unlimited }
    ensures { IfOk result (λ most.
        most ≡ pos (spec.line_takes_with released (line_at entries.now.current id.now held.now))) }
{
    match load_line(entries, id, held)? {
        None => Ok(0),
        Some(slot) => Ok(a_line_takes(&slot.line, released)),
    }
}

/// What can be taken in a line that exists.
fn a_line_takes(line: &TrustLineEntry, released: i64) -> i64
    requires range { IsLineInRange line.now }
    requires fits { at_least_nothing (line_room line.now +ℤ released) ≤ unlimited }
    ensures { result ≡ pos (at_least_nothing (line_room line.now +ℤ released)) }
{
    bound_of(line_room(line) as i128 + released as i128)
}
