//! What one entry holds of an asset. Amounts are in units of 10^-7 (stroops), of 64 bits with a sign.

ghost use Rattle.std.specs.Prelude.{◌≡◌, pos, negsuc, ◌≤ℤ◌};
ghost use Rattle.legal_rules.specs.entry_sums.Sums.{part};
ghost use Rattle.legal_rules.specs.Supply as supply;
ghost use Rattle.tally.specs.Walk as spec;

use ledger_types::{Asset, LedgerEntry, LedgerEntryBody, LiquidityPoolEntry, TrustLineAsset};

/// An amount of an asset where that is the one asked for, else 0.
fn of_asset(asked: &Asset, asset: &Asset, amount: i64) -> i64
    ensures { supply.of_asset asked.now asset.now amount ≡ result }
{
    if asked.is_same(asset) { amount } else { 0 }
}

/// The balance of a line where it is in the asset asked for, else 0. Shares of a pool are no asset: what they represent
/// is counted as the pool's reserves (CAP-0038).
fn of_line(asked: &Asset, line: &TrustLineAsset, balance: i64) -> i64
    ensures { supply.of_line asked.now line.now balance ≡ result }
{
    match line {
        TrustLineAsset::Native => 0,
        TrustLineAsset::Alphanum4 { code, issuer } => {
            let asset = Asset::Alphanum4 {
                code: *code,
                issuer: *issuer,
            };
            of_asset(asked, &asset, balance)
        }
        TrustLineAsset::Alphanum12 { code, issuer } => {
            let asset = Asset::Alphanum12 {
                code: *code,
                issuer: *issuer,
            };
            of_asset(asked, &asset, balance)
        }
        TrustLineAsset::PoolShare(_) => 0,
    }
}

/// What a pool's two reserves are in an asset (CAP-0038), which together may pass 64 bits.
fn of_pool(asked: &Asset, pool: &LiquidityPoolEntry) -> i128
    ensures value { result ≡ spec.held_in_pool asked.now pool.now }
    ensures low { negsuc 18446744073709551615 ≤ℤ result }
    ensures high { result ≤ℤ pos 18446744073709551616 }
{
    let first = of_asset(asked, &pool.params.asset_a, pool.reserve_a);
    let second = of_asset(asked, &pool.params.asset_b, pool.reserve_b);
    i128::from(first) + i128::from(second)
}

/// What an entry holds of an asset: an account lumens, a line and a claimable balance an amount, a pool its reserves.
/// Offers and data hold nothing.
pub(crate) fn held_in(asked: &Asset, body: &LedgerEntryBody) -> i128
    ensures value { result ≡ supply.held_in asked.now body.now }
    ensures low { negsuc 18446744073709551615 ≤ℤ result }
    ensures high { result ≤ℤ pos 18446744073709551616 }
{
    match body {
        LedgerEntryBody::Account(account) => {
            i128::from(of_asset(asked, &Asset::Native, account.balance))
        }
        LedgerEntryBody::TrustLine(line) => i128::from(of_line(asked, &line.asset, line.balance)),
        LedgerEntryBody::Offer(_) => 0,
        LedgerEntryBody::Data(_) => 0,
        LedgerEntryBody::ClaimableBalance(balance) => {
            i128::from(of_asset(asked, &balance.asset, balance.amount))
        }
        LedgerEntryBody::LiquidityPool(pool) => of_pool(asked, pool),
    }
}

/// What an entry, if there is one, holds of an asset.
pub(crate) fn held_if(asked: &Asset, entry: &Option<LedgerEntry>) -> i128
    ensures value { result ≡ part (supply.held asked.now) entry.now }
    ensures low { negsuc 18446744073709551615 ≤ℤ result }
    ensures high { result ≤ℤ pos 18446744073709551616 }
{
    match entry {
        None => 0,
        Some(entry) => held_in(asked, &entry.body),
    }
}
