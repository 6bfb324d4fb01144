//! When a claimant may claim, and what becomes of times that count from the close.

ghost use Rattle.std.specs.Prelude.{◌≡◌, map, IfOk};
ghost use Rattle.op_claim.specs.Predicates as spec;

use item_list::{Boxed, ItemList};
use ledger_types::{ClaimPredicate, Claimant};
use std::alloc::{AllocError, Global};

/// How many levels a valid predicate has at most, a leaf being one.
const MAX_LEVELS: u32 = 4;

/// Whether a predicate holds in the ledger that closes at this time, in seconds since 1970-01-01T00:00:00Z.
pub fn holds_at(close_time: u64, predicate: &ClaimPredicate) -> bool
    ensures { result ≡ spec.holds_at close_time predicate.now }
{
    holds_below(close_time, MAX_LEVELS, predicate)
}

/// Whether a predicate of at most so many levels holds.
#[tactic(auto, unfolding(crate::specs::Predicates::holds_below))]
fn holds_below(close_time: u64, levels: u32, predicate: &ClaimPredicate) -> bool
    ensures { result ≡ spec.holds_below close_time levels predicate.now }
{
    if levels == 0 {
        return false;
    }
    match predicate {
        ClaimPredicate::Unconditional => true,
        ClaimPredicate::And(parts) => match parts.as_slice() {
            [first, second] => {
                holds_below(close_time, levels - 1, first)
                    && holds_below(close_time, levels - 1, second)
            }
            _ => false,
        },
        ClaimPredicate::Or(parts) => match parts.as_slice() {
            [first, second] => {
                holds_below(close_time, levels - 1, first)
                    || holds_below(close_time, levels - 1, second)
            }
            _ => false,
        },
        ClaimPredicate::Not(None) => false,
        ClaimPredicate::Not(Some(part)) => !holds_below(close_time, levels - 1, part.get()),
        ClaimPredicate::BeforeAbsoluteTime(time) => i128::from(close_time) < i128::from(*time),
        ClaimPredicate::BeforeRelativeTime(_) => false,
    }
}

/// So many seconds after a time, at most the greatest time.
fn time_after(close_time: u64, seconds: i64) -> i64
    ensures { result ≡ spec.time_after close_time seconds }
{
    let time = i128::from(close_time) + i128::from(seconds);
    if time < i128::from(i64::MAX) {
        time as i64
    } else {
        i64::MAX
    }
}

/// The same predicate with no time from the close, down to so many levels.
#[cycle(predicate_fixed)]
#[tactic(auto, unfolding(crate::specs::Predicates::fixed_below))]
fn fixed_below(
    alloc: Global,
    close_time: u64,
    levels: u32,
    predicate: &ClaimPredicate,
) -> Result<ClaimPredicate, AllocError>
    ensures { IfOk result (λ fixed. fixed ≡ spec.fixed_below close_time levels predicate.now) }
{
    if levels == 0 {
        return predicate.copy();
    }
    match predicate {
        ClaimPredicate::And(parts) => {
            let parts = all_fixed_below(alloc, close_time, levels - 1, parts.as_slice())?;
            Ok(ClaimPredicate::And(parts))
        }
        ClaimPredicate::Or(parts) => {
            let parts = all_fixed_below(alloc, close_time, levels - 1, parts.as_slice())?;
            Ok(ClaimPredicate::Or(parts))
        }
        ClaimPredicate::Not(Some(part)) => {
            let part = fixed_below(alloc, close_time, levels - 1, part.get())?;
            Ok(ClaimPredicate::Not(Some(Boxed::new(alloc, part)?)))
        }
        ClaimPredicate::BeforeRelativeTime(seconds) => {
            Ok(ClaimPredicate::BeforeAbsoluteTime(time_after(close_time, *seconds)))
        }
        ClaimPredicate::Unconditional => Ok(ClaimPredicate::Unconditional),
        ClaimPredicate::Not(None) => Ok(ClaimPredicate::Not(None)),
        ClaimPredicate::BeforeAbsoluteTime(time) => Ok(ClaimPredicate::BeforeAbsoluteTime(*time)),
    }
}

/// The same of each predicate.
#[cycle(predicate_fixed)]
fn all_fixed_below(
    alloc: Global,
    close_time: u64,
    levels: u32,
    parts: &[ClaimPredicate],
) -> Result<ItemList<ClaimPredicate>, AllocError>
    ensures { IfOk result (λ fixed. fixed ≡ map (spec.fixed_below close_time levels) parts.now) }
{
    let mut fixed = ItemList::new(alloc);
    for part in parts {
        fixed.push(fixed_below(alloc, close_time, levels, part)?)?;
    }
    Ok(fixed)
}

/// A claimant as the balance keeps it that is made in the ledger which closes at this time.
fn fixed_claimant(
    alloc: Global,
    close_time: u64,
    claimant: &Claimant,
) -> Result<Claimant, AllocError>
    ensures { IfOk result (λ fixed. fixed ≡ spec.fixed_claimant close_time claimant.now) }
{
    Ok(Claimant {
        destination: claimant.destination,
        predicate: fixed_below(alloc, close_time, MAX_LEVELS, &claimant.predicate)?,
    })
}

/// The same of each claimant.
pub fn fixed_claimants(
    alloc: Global,
    close_time: u64,
    claimants: &[Claimant],
) -> Result<ItemList<Claimant>, AllocError>
    ensures { IfOk result (λ fixed. fixed ≡ map (spec.fixed_claimant close_time) claimants.now) }
{
    let mut fixed = ItemList::new(alloc);
    for claimant in claimants {
        fixed.push(fixed_claimant(alloc, close_time, claimant)?)?;
    }
    Ok(fixed)
}
