//! The ranges of trust lines.

ghost use Rattle.std.specs.Prelude.{◌≢◌, ◌↔◌, ◌%◌, ◌≤◌, pos, ◌+ℤ◌, ◌≤ℤ◌, IsTrue};
ghost use Rattle.entry_slots.specs.LineExtensions as spec;
ghost use Rattle.sponsor_rules.specs.reserve_rules.Reserve.{IsLineInRange};
ghost use Rattle.close_rules.specs.legal_rules.Ranges.{IsHeldIn, AreLineFlags, IsTrustLineInRange};

use crate::room::fits_within;
use entry_slots::{line_liabilities, use_count};
use ledger_types::{AccountId, Asset, TrustLineAsset, TrustLineEntry};
use valid_values::is_valid_asset;

/// Whether balance and what is to be sold are at least 0, and the balance covers what is to be sold (CAP-0003).
fn is_covered(line: &TrustLineEntry) -> bool
    ensures { IsTrue result ↔ ((pos 0 ≤ℤ line.now.balance) × (pos 0 ≤ℤ (spec.line_liabilities line.now).selling)
        × ((spec.line_liabilities line.now).selling ≤ℤ line.now.balance)) }
{
    let selling = line_liabilities(line).selling;
    0 <= line.balance && 0 <= selling && selling <= line.balance
}

/// Whether what is to be bought is at least 0 and fits beside the balance within the limit (CAP-0003).
fn has_room(line: &TrustLineEntry) -> bool
    ensures { IsTrue result ↔ ((pos 0 ≤ℤ (spec.line_liabilities line.now).buying)
        × ((line.now.balance +ℤ (spec.line_liabilities line.now).buying) ≤ℤ line.now.limit)) }
{
    let buying = line_liabilities(line).buying;
    0 <= buying && fits_within(line.balance, buying, line.limit)
}

/// Whether a line's balance and liabilities are in their ranges.
fn is_balance_in_range(line: &TrustLineEntry) -> bool
    ensures { IsTrue result ↔ IsLineInRange line.now }
{
    let covered = is_covered(line);
    let room = has_room(line);
    covered && room
}

/// Whether an account may have a line in an asset: in pool shares, or in a valid credit asset of another account.
#[tactic(auto, unfolding(valid_values::specs::Assets::is_valid_asset))]
fn is_held(id: &AccountId, asset: &TrustLineAsset) -> bool
    ensures { IsTrue result ↔ IsHeldIn id.now asset.now }
{
    match *asset {
        TrustLineAsset::Native => false,
        TrustLineAsset::Alphanum4 { code, issuer } => {
            is_valid_asset(&Asset::Alphanum4 { code, issuer }) && issuer != *id
        }
        TrustLineAsset::Alphanum12 { code, issuer } => {
            is_valid_asset(&Asset::Alphanum12 { code, issuer }) && issuer != *id
        }
        TrustLineAsset::PoolShare(_) => true,
    }
}

/// Whether there is no flag but AUTHORIZED 1, AUTHORIZED_TO_MAINTAIN_LIABILITIES 2 (CAP-0018) and
/// TRUSTLINE_CLAWBACK_ENABLED 4 (CAP-0035), and not both of the first two.
fn are_credit_flags(flags: u32) -> bool
    ensures { IsTrue result ↔ ((flags ≤ 7) × (flags % 4 ≢ 3)) }
{
    flags <= 7 && flags % 4 != 3
}

/// Whether a line in an asset may have these flags. A line of pool shares has none (CAP-0038).
fn are_line_flags(asset: &TrustLineAsset, flags: u32) -> bool
    ensures { IsTrue result ↔ AreLineFlags asset.now flags }
{
    match asset {
        TrustLineAsset::PoolShare(_) => flags == 0,
        _ => are_credit_flags(flags),
    }
}

/// Whether a trust line is in its ranges.
pub fn is_line_in_range(line: &TrustLineEntry) -> bool
    ensures { IsTrue result ↔ IsTrustLineInRange line.now }
{
    let range = is_balance_in_range(line);
    let held = is_held(&line.account_id, &line.asset);
    let flags = are_line_flags(&line.asset, line.flags);
    range && 1 <= line.limit && held && flags && 0 <= use_count(line)
}
