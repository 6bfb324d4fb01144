//! Predicates of claimable balances.

ghost use Rattle.std.specs.Prelude.{◌≡◌, true, false};
ghost use Rattle.valid_values.specs.Predicates as spec;

use ledger_types::ClaimPredicate;

/// How many levels a valid predicate has at most, a leaf being one.
const MAX_LEVELS: u32 = 4;

/// Whether a predicate may be asked for in an operation: of at most four levels, with two parts in AND and OR, one in
/// NOT, and times of at least 0 (CAP-0023).
pub fn is_valid_predicate(predicate: &ClaimPredicate) -> bool
    ensures { result ≡ spec.is_valid_predicate predicate.now }
{
    is_valid_below(true, MAX_LEVELS, predicate)
}

/// Whether a claimable balance may have a predicate: one that is valid and has no time that counts from the close of a
/// ledger, since such a time becomes absolute where a balance is made (CAP-0023).
pub fn is_valid_stored_predicate(predicate: &ClaimPredicate) -> bool
    ensures { result ≡ spec.is_valid_stored_predicate predicate.now }
{
    is_valid_below(false, MAX_LEVELS, predicate)
}

/// Whether a predicate is valid and has at most so many levels.
#[tactic(auto, unfolding(crate::specs::Predicates::is_valid_below))]
fn is_valid_below(may_be_relative: bool, levels: u32, predicate: &ClaimPredicate) -> bool
    ensures { result ≡ spec.is_valid_below may_be_relative levels predicate.now }
{
    if levels == 0 {
        return false;
    }
    match predicate {
        ClaimPredicate::Unconditional => true,
        ClaimPredicate::And(parts) | ClaimPredicate::Or(parts) => match parts.as_slice() {
            [first, second] => {
                is_valid_below(may_be_relative, levels - 1, first)
                    && is_valid_below(may_be_relative, levels - 1, second)
            }
            _ => false,
        },
        ClaimPredicate::Not(None) => false,
        ClaimPredicate::Not(Some(part)) => is_valid_below(may_be_relative, levels - 1, part.get()),
        ClaimPredicate::BeforeAbsoluteTime(time) => *time >= 0,
        ClaimPredicate::BeforeRelativeTime(seconds) => may_be_relative && *seconds >= 0,
    }
}
