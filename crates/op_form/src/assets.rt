//! Assets that are issued: who issues one, and which line holds it.

ghost use Rattle.std.specs.Prelude.{◌≡◌, IfOk};
ghost use Rattle.entry_slots.specs.Accounts.{account_of_slot};
ghost use Rattle.op_form.specs.Assets as spec;

use entry_map::{Base, Entries};
use entry_slots::{AccountSlot, load_account};
use ledger_types::{AccountId, Asset, TrustLineAsset};
use std::alloc::AllocError;

/// Whether an asset is lumens.
pub fn is_native(asset: &Asset) -> bool
    ensures { result ≡ spec.is_native asset.now }
{
    match asset {
        Asset::Native => true,
        _ => false,
    }
}

/// Whether an account issues an asset. Nobody issues lumens.
pub fn is_issued_by(asset: &Asset, id: &AccountId) -> bool
    ensures { result ≡ spec.is_issued_by asset.now id.now }
{
    match asset {
        Asset::Native => false,
        Asset::Alphanum4 { code: _, issuer } => issuer.0 == id.0,
        Asset::Alphanum12 { code: _, issuer } => issuer.0 == id.0,
    }
}

/// What the line is in that holds an asset. No line holds lumens.
pub fn line_asset_of(asset: &Asset) -> TrustLineAsset
    ensures { result ≡ spec.line_asset_of asset.now }
{
    match *asset {
        Asset::Native => TrustLineAsset::Native,
        Asset::Alphanum4 { code, issuer } => TrustLineAsset::Alphanum4 { code, issuer },
        Asset::Alphanum12 { code, issuer } => TrustLineAsset::Alphanum12 { code, issuer },
    }
}

/// The account that issues an asset, if it exists.
pub fn load_issuer<B: Base>(
    entries: &Entries<'_, B>,
    asset: &Asset,
) -> Result<Option<AccountSlot>, AllocError>
    ensures { IfOk result (λ slot. spec.issuer_at entries.now.current asset.now ≡ account_of_slot slot) }
{
    match asset {
        Asset::Native => Ok(None),
        Asset::Alphanum4 { code: _, issuer } => load_account(entries, issuer),
        Asset::Alphanum12 { code: _, issuer } => load_account(entries, issuer),
    }
}
