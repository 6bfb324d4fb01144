//! The ranges of claimable balances (CAP-0023).

ghost use Rattle.std.specs.Prelude.{◌≡◌, ◌≢◌, ◌↔◌, All, true, IsTrue};
ghost use Rattle.std.specs.List.{AllPairs};
ghost use Rattle.valid_values.specs.Predicates as predicate;
ghost use Rattle.close_rules.specs.legal_rules.Ranges.{balance_flags, AreClaimantsInRange, IsBalanceInRange};

use ledger_types::{AccountId, ClaimableBalanceEntry, ClaimableBalanceEntryExtensionV1, Claimant};
use valid_values::{is_valid_asset, is_valid_stored_predicate};

/// The flags of a claimable balance (CAP-0035). What isn't there reads as 0.
fn flags_of(ext: &Option<ClaimableBalanceEntryExtensionV1>) -> u32
    ensures { result ≡ balance_flags ext.now }
{
    match ext {
        None => 0,
        Some(ext) => ext.flags,
    }
}

/// Whether none of these claimants has a destination.
fn is_new(destination: &AccountId, claimants: &[Claimant]) -> bool
    ensures { IsTrue result ↔ All (λ x. x.destination ≢ destination.now) claimants.now }
{
    claimants
        .iter()
        .all(|claimant| claimant.destination != *destination)
}

/// Whether each claimant has a destination of its own.
fn are_apart(claimants: &[Claimant]) -> bool
    ensures { IsTrue result ↔ AllPairs (λ x y. x.destination ≢ y.destination) claimants.now }
{
    for index in 0..claimants.len() {
        if !is_new(&claimants[index].destination, &claimants[..index]) {
            return false;
        }
    }
    true
}

/// Whether each claimant's predicate is one that a balance may have.
fn are_predicates_valid(claimants: &[Claimant]) -> bool
    ensures { IsTrue result ↔ All (λ c. predicate.is_valid_stored_predicate c.predicate ≡ true) claimants.now }
{
    claimants
        .iter()
        .all(|claimant| is_valid_stored_predicate(&claimant.predicate))
}

/// Whether there are 1 to 10 claimants, each with a destination of its own and a predicate that a balance may have.
fn are_claimants_in_range(claimants: &[Claimant]) -> bool
    ensures { IsTrue result ↔ AreClaimantsInRange claimants.now }
{
    let apart = are_apart(claimants);
    let valid = are_predicates_valid(claimants);
    1 <= claimants.len() && claimants.len() <= 10 && apart && valid
}

/// Whether a claimable balance is in its ranges: of at least 1 unit of 10^-7 of a valid asset, with no flag but
/// CLAIMABLE_BALANCE_CLAWBACK_ENABLED 1, for 1 to 10 claimants.
pub fn is_claimable_in_range(balance: &ClaimableBalanceEntry) -> bool
    ensures { IsTrue result ↔ IsBalanceInRange balance.now }
{
    let asset = is_valid_asset(&balance.asset);
    let claimants = are_claimants_in_range(balance.claimants.as_slice());
    1 <= balance.amount && asset && flags_of(&balance.ext) <= 1 && claimants
}
