//! The encoding of a key that is looked for.

ghost use Rattle.std.specs.Prelude.{◌≡◌, ◌<◌, length, take, MatchOption, IfOk};
ghost use Rattle.xdr_core.specs.Format.{IsBytes};
ghost use Rattle.xdr_core.specs.Leaves as leaves;
ghost use Rattle.xdr_entries.specs.Basic as basic;
ghost use Rattle.xdr_entries.specs.Keys.{ledger_key};
ghost use Rattle.bucket_items.specs.KeyText.{IsKeyText};
ghost use Rattle.bucket_core.specs.Encoded.{IsEncoded};
ghost use Rattle.bucket_core.specs.EncodedKey as spec;
ghost use Rattle.ledger_types.specs.declared.key.LedgerKey.TheVariants as keys;

use item_list::ItemList;
use ledger_types::{AccountId, ClaimableBalanceId, Hash, LedgerKey, TrustLineAsset};
use std::alloc::{AllocError, Global};
use xdr_core::Builder;
use xdr_entries::write_ledger_key;

/// The most bytes that a name has in an encoding.
const MAX_NAME_LEN: usize = 64;

/// Bytes are bytes. It does nothing.
fn bytes_fit(bytes: &[u8])
    ensures { IsBytes bytes.now }
{}

/// A number can be encoded. It does nothing.
#[tactic(auto, unfolding(xdr_core::specs::Leaves::i64))]
fn number_fits(number: i64)
    ensures { IsEncoded leaves.i64 number }
{}

/// An account's id can be encoded. It does nothing.
#[tactic(auto, unfolding(xdr_entries::specs::Basic::account_id, xdr_core::specs::Leaves::fixed))]
fn account_fits(id: &AccountId)
    ensures { IsEncoded basic.account_id id.now }
{
    bytes_fit(&id.0);
}

/// A hash can be encoded. It does nothing.
#[tactic(auto, unfolding(xdr_entries::specs::Basic::hash, xdr_core::specs::Leaves::fixed))]
fn is_hash_encoded(hash: &Hash)
    ensures { IsEncoded basic.hash hash.now }
{
    bytes_fit(&hash.0);
}

/// The id of a claimable balance can be encoded. It does nothing.
#[tactic(auto, unfolding(xdr_entries::specs::Basic::claimable_balance_id, xdr_core::specs::Combinators::constant))]
fn balance_fits(id: &ClaimableBalanceId)
    ensures { IsEncoded basic.claimable_balance_id id.now }
{
    is_hash_encoded(&id.0);
}

/// An asset's issuer and code can be encoded. It does nothing.
#[tactic(auto, unfolding(xdr_entries::specs::Basic::trust_line_asset, xdr_core::specs::Leaves::fixed))]
fn asset_fits(asset: &TrustLineAsset)
    ensures { IsEncoded basic.trust_line_asset asset.now }
{
    match asset {
        TrustLineAsset::Native => {}
        TrustLineAsset::Alphanum4 { code, issuer } => {
            bytes_fit(code);
            account_fits(issuer);
        }
        TrustLineAsset::Alphanum12 { code, issuer } => {
            bytes_fit(code);
            account_fits(issuer);
        }
        TrustLineAsset::PoolShare(hash) => is_hash_encoded(hash),
    }
}

/// The account and the name of a key without an encoding, which is one of data under a name of more than 64 bytes.
/// Any other key has one.
#[tactic(auto, unfolding(xdr_entries::specs::Keys::ledger_key, xdr_core::specs::Leaves::var))]
fn long_name(key: &LedgerKey) -> Option<(&AccountId, &[u8])>
    ensures { MatchOption result (IsEncoded ledger_key key.now)
        (λ found. spec.HasLongName key.now found.0.now found.1.now) }
{
    match key {
        LedgerKey::Account { account_id } => {
            account_fits(account_id);
            None
        }
        LedgerKey::TrustLine { account_id, asset } => {
            account_fits(account_id);
            asset_fits(asset);
            None
        }
        LedgerKey::Offer {
            seller_id,
            offer_id,
        } => {
            account_fits(seller_id);
            number_fits(*offer_id);
            None
        }
        LedgerKey::Data {
            account_id,
            data_name,
        } => {
            account_fits(account_id);
            bytes_fit(data_name.as_slice());
            if data_name.len() > MAX_NAME_LEN {
                return Some((account_id, data_name.as_slice()));
            }
            None
        }
        LedgerKey::ClaimableBalance { balance_id } => {
            balance_fits(balance_id);
            None
        }
        LedgerKey::LiquidityPool { pool_id } => {
            is_hash_encoded(pool_id);
            None
        }
    }
}

/// The encoding of a key that has one.
fn encoding_of(alloc: Global, key: &LedgerKey) -> Result<Vec<u8>, AllocError>
    requires { IsEncoded ledger_key key.now }
    ensures { IfOk result (λ text. IsKeyText text.items key.now) }
{
    let mut text = Builder::new(alloc);
    write_ledger_key(key, &mut text)?;
    Ok(text.finish())
}

/// The encoding of a key, if it has one.
pub fn encoded_key(alloc: Global, key: &LedgerKey) -> Result<Option<Vec<u8>>, AllocError>
    ensures { IfOk result (λ text.
        MatchOption text (IsEncoded ledger_key key.now → ⊥) (λ t. IsKeyText t.items key.now)) }
{
    match long_name(key) {
        Some(_) => Ok(None),
        None => Ok(Some(encoding_of(alloc, key)?)),
    }
}

/// The encoding of the key of data under the first 64 bytes of a longer name.
#[tactic(auto, unfolding(xdr_entries::specs::Keys::ledger_key, xdr_core::specs::Leaves::var))]
fn cut_encoding(alloc: Global, account_id: &AccountId, name: &[u8]) -> Result<Vec<u8>, AllocError>
    requires { 64 < length name.now }
    ensures { IfOk result (λ text. IsKeyText text.items (keys.Data account_id.now (take 64 name.now))) }
{
    account_fits(account_id);
    let prefix = name.split_at(MAX_NAME_LEN).0;
    bytes_fit(prefix);
    let key = LedgerKey::Data {
        account_id: *account_id,
        data_name: ItemList::from_vec(Vec::from_slice(alloc, prefix)?),
    };
    encoding_of(alloc, &key)
}

/// The encoding of a key that the same keys with an encoding are above as above another: of the key itself, or of one
/// with as much of its name as an encoding has.
pub fn encoded_bound(alloc: Global, key: &LedgerKey) -> Result<Vec<u8>, AllocError>
    ensures { IfOk result (λ text. spec.IsBoundText text.items key.now) }
{
    match long_name(key) {
        None => encoding_of(alloc, key),
        Some((account_id, name)) => cut_encoding(alloc, account_id, name),
    }
}
