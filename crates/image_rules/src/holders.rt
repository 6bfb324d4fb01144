//! Where accounts have what their offers trade (CAP-0003), and what they need for shares of pools (CAP-0038).

ghost use Rattle.std.specs.Prelude.{◌≡◌};
ghost use Rattle.close_rules.specs.legal_rules.Trades as spec;
ghost use Rattle.close_rules.specs.legal_rules.PoolShares as shares;

use ledger_types::{AccountId, Asset, LedgerKey, TrustLineAsset};

/// The key of what an account has an asset in: of its own entry or of its line. None of its own asset, which needs no
/// line.
pub fn holder(id: &AccountId, asset: &Asset) -> Option<LedgerKey>
    ensures { result ≡ spec.holder id.now asset.now }
{
    match *asset {
        Asset::Native => Some(LedgerKey::Account { account_id: *id }),
        Asset::Alphanum4 { code, issuer } => {
            if issuer.0 == id.0 {
                None
            } else {
                Some(LedgerKey::TrustLine {
                    account_id: *id,
                    asset: TrustLineAsset::Alphanum4 { code, issuer },
                })
            }
        }
        Asset::Alphanum12 { code, issuer } => {
            if issuer.0 == id.0 {
                None
            } else {
                Some(LedgerKey::TrustLine {
                    account_id: *id,
                    asset: TrustLineAsset::Alphanum12 { code, issuer },
                })
            }
        }
    }
}

/// The key of the line that an account needs in an asset of a pool, to have shares of it. It needs none in lumens or in
/// its own asset.
pub fn needed_line(id: &AccountId, asset: &Asset) -> Option<LedgerKey>
    ensures { result ≡ shares.needed_line id.now asset.now }
{
    match asset {
        Asset::Native => None,
        _ => holder(id, asset),
    }
}
