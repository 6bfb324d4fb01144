//! Rule 13: lumens are the header's total.

ghost use Rattle.std.specs.Prelude.{◌≡◌, ◌↔◌, pos, negsuc, ◌+ℤ◌, ◌≤ℤ◌, IsTrue};
ghost use Rattle.ledger_types.specs.declared.asset.Asset.TheVariants.{Native};
ghost use Rattle.close_rules.specs.legal_rules.Supply.{held_in, of_asset};
ghost use Rattle.image_rules.specs.Terms.{AreTerms};

use ledger_types::{Asset, LedgerEntryBody, LedgerHeader};

/// The lumens in an amount of an asset, both in units of 10^-7.
fn lumens_among(asset: &Asset, amount: i64) -> i64
    ensures { of_asset Native asset.now amount ≡ result }
{
    match asset {
        Asset::Native => amount,
        _ => 0,
    }
}

/// The lumens that an account, a claimable balance or a pool holds. Lines, offers and data hold none. Lumens are below
/// all other assets, so they are never the second asset of a pool.
pub fn lumens_in(body: &LedgerEntryBody) -> i64
    requires { AreTerms body.now }
    ensures value { held_in Native body.now ≡ result }
    ensures low { negsuc 9223372036854775807 ≤ℤ result }
    ensures high { result ≤ℤ pos 9223372036854775807 }
{
    match body {
        LedgerEntryBody::Account(account) => account.balance,
        LedgerEntryBody::TrustLine(_) => 0,
        LedgerEntryBody::Offer(_) => 0,
        LedgerEntryBody::Data(_) => 0,
        LedgerEntryBody::ClaimableBalance(balance) => lumens_among(&balance.asset, balance.amount),
        LedgerEntryBody::LiquidityPool(pool) => lumens_among(&pool.params.asset_a, pool.reserve_a),
    }
}

/// Whether lumens and the fee pool are the total.
pub fn is_total(lumens: i128, fee_pool: i64, total_coins: i64) -> bool
    ensures { IsTrue result ↔ ((lumens +ℤ fee_pool) ≡ total_coins) }
{
    let rest = i128::from(total_coins) - i128::from(fee_pool);
    lumens <= rest && rest <= lumens
}
