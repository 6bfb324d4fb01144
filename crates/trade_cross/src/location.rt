//! Where an account has an asset.

ghost use Rattle.std.specs.Prelude.{◌≡◌};
ghost use Rattle.legal_rules.specs.Trades.{holder};
ghost use Rattle.trade_cross.specs.Locations.{location_key};

use ledger_types::{AccountId, Asset, TrustLineAsset};

/// Where an account has an asset.
#[derive(Clone, Copy)]
pub enum Location {
    /// In its own entry.
    Account,
    /// In a trust line.
    Line(TrustLineAsset),
    /// In none: it issues the asset, and has as much as it likes.
    Nowhere,
}

/// Where an account has an asset.
pub fn location_of(id: &AccountId, asset: &Asset) -> Location
    ensures { location_key id.now result ≡ holder id.now asset.now }
{
    match *asset {
        Asset::Native => Location::Account,
        Asset::Alphanum4 { code, issuer } => {
            if issuer.0 == id.0 {
                Location::Nowhere
            } else {
                Location::Line(TrustLineAsset::Alphanum4 { code, issuer })
            }
        }
        Asset::Alphanum12 { code, issuer } => {
            if issuer.0 == id.0 {
                Location::Nowhere
            } else {
                Location::Line(TrustLineAsset::Alphanum12 { code, issuer })
            }
        }
    }
}
