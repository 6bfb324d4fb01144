//! Rule 8: what entries need exists; that offers have distinct ids is in offer_ids.

ghost use Rattle.std.specs.Prelude.{◌≢◌, ◌↔◌, ◌∷◌, None, All, IsTrue, IfOk};
ghost use Rattle.std.specs.List.{flat_map};
ghost use Rattle.std.specs.FinMap.{get};
ghost use Rattle.ledger_types.specs.declared.key.LedgerKey.TheVariants as key;
ghost use Rattle.ledger_types.specs.Keys.{key_of, key_of_body};
ghost use Rattle.sponsor_rules.specs.Charge as charge;
ghost use Rattle.close_rules.specs.legal_rules.Reserves.{signer_sponsors_in};
ghost use Rattle.close_rules.specs.legal_rules.Needs.{account_keys, keys_in, share_keys, pool_keys};
ghost use Rattle.close_rules.specs.legal_rules.Needs.{holding_keys};
ghost use Rattle.close_rules.specs.legal_rules.Legal.{pools_in};
ghost use Rattle.image_rules.specs.Holdings.{traded_keys};
ghost use Rattle.image_rules.specs.Surveys.{HasNeeded, IsKnown};

use crate::existing_pools::pool_params;
use crate::holders::needed_line;
use crate::parts::{owner_of, sponsorship};
use entry_map::Base;
use entry_slots::sponsor_in;
use ledger_types::{
    AccountId, Hash, LedgerEntry, LedgerEntryBody, LedgerKey, PoolParams, TrustLineAsset,
};
use level_entries::PlacedEntries;
use std::alloc::AllocError;

/// Whether an account exists.
fn has_account(entries: &PlacedEntries<'_>, account_id: AccountId) -> Result<bool, AllocError>
    ensures { IfOk result (λ there. IsTrue there ↔ (get entries.now (key.Account account_id) ≢ None)) }
{
    let found = entries.find(&LedgerKey::Account { account_id })?;
    Ok(found.is_some())
}

/// Whether an account exists. It is looked up unless it is the one that is known to exist, and is known from then on if
/// it does: the entries of one owner come one after another.
fn is_known_or_there(
    entries: &PlacedEntries<'_>,
    known: &mut Option<AccountId>,
    account_id: AccountId,
) -> Result<bool, AllocError>
    requires { IsKnown entries.now known.old }
    ensures answer { IfOk result (λ there. IsTrue there ↔ (get entries.now (key.Account account_id) ≢ None)) }
    ensures known { IsKnown entries.now known.new }
{
    if *known == Some(account_id) {
        return Ok(true);
    }
    let there = has_account(entries, account_id)?;
    if there {
        *known = Some(account_id);
    }
    Ok(there)
}

/// Whether an account exists, if one is named.
fn exists(entries: &PlacedEntries<'_>, id: Option<AccountId>) -> Result<bool, AllocError>
    ensures { IfOk result (λ there. IsTrue there ↔ All (λ q. get entries.now q ≢ None) (account_keys id)) }
{
    match id {
        None => Ok(true),
        Some(account_id) => has_account(entries, account_id),
    }
}

/// Whether all accounts that are named exist.
fn do_all_exist(entries: &PlacedEntries<'_>, ids: &[Option<AccountId>]) -> Result<bool, AllocError>
    ensures { IfOk result (λ there.
        IsTrue there ↔ All (λ id. All (λ q. get entries.now q ≢ None) (account_keys id)) ids.now) }
{
    for id in ids {
        if !exists(entries, *id)? {
            return Ok(false);
        }
    }
    Ok(true)
}

/// Whether an account exists, if one is named, by the one that is known to exist.
fn is_owner_there(
    entries: &PlacedEntries<'_>,
    known: &mut Option<AccountId>,
    id: Option<AccountId>,
) -> Result<bool, AllocError>
    requires { IsKnown entries.now known.old }
    ensures answer { IfOk result (λ there. IsTrue there ↔ All (λ q. get entries.now q ≢ None) (account_keys id)) }
    ensures known { IsKnown entries.now known.new }
{
    match id {
        None => Ok(true),
        Some(account_id) => is_known_or_there(entries, known, account_id),
    }
}

/// Whether the owner of an entry exists, where the entry does. An account is its own.
fn does_owner_exist(
    entries: &PlacedEntries<'_>,
    known: &mut Option<AccountId>,
    body: &LedgerEntryBody,
) -> Result<bool, AllocError>
    requires there { get entries.now (key_of_body body.now) ≢ None }
    requires known { IsKnown entries.now known.old }
    ensures answer { IfOk result (λ there.
        IsTrue there ↔ All (λ q. get entries.now q ≢ None) (account_keys (charge.owner_of body.now))) }
    ensures known { IsKnown entries.now known.new }
{
    match body {
        LedgerEntryBody::Account(_) => Ok(true),
        _ => is_owner_there(entries, known, owner_of(body)),
    }
}

/// Whether the sponsors of the signers in an entry exist.
fn do_payers_exist(entries: &PlacedEntries<'_>, body: &LedgerEntryBody) -> Result<bool, AllocError>
    ensures { IfOk result (λ there.
        IsTrue there ↔ All (λ q. get entries.now q ≢ None) (flat_map account_keys (signer_sponsors_in body.now))) }
{
    match body {
        LedgerEntryBody::Account(account) => match sponsorship(account) {
            None => Ok(true),
            Some(sponsorship) => {
                do_all_exist(entries, sponsorship.signer_sponsoring_ids.as_slice())
            }
        },
        _ => Ok(true),
    }
}

/// Whether something exists under a key, if one is named.
fn is_key_there(entries: &PlacedEntries<'_>, named: Option<LedgerKey>) -> Result<bool, AllocError>
    ensures { IfOk result (λ there. IsTrue there ↔ All (λ q. get entries.now q ≢ None) (keys_in named)) }
{
    match named {
        None => Ok(true),
        Some(key) => {
            let found = entries.find(&key)?;
            Ok(found.is_some())
        }
    }
}

/// Whether the lines exist that an account needs for its shares of a pool.
fn are_needed_there(
    entries: &PlacedEntries<'_>,
    id: &AccountId,
    params: &Option<PoolParams>,
) -> Result<bool, AllocError>
    ensures { IfOk result (λ there.
        IsTrue there ↔ All (λ q. get entries.now q ≢ None) (share_keys id.now params.now)) }
{
    match params {
        None => Ok(true),
        Some(params) => {
            let first = is_key_there(entries, needed_line(id, &params.asset_a))?;
            let second = is_key_there(entries, needed_line(id, &params.asset_b))?;
            Ok(first && second)
        }
    }
}

/// Whether a pool exists.
fn has_pool(entries: &PlacedEntries<'_>, pool_id: Hash) -> Result<bool, AllocError>
    ensures { IfOk result (λ there. IsTrue there ↔ (get entries.now (key.LiquidityPool pool_id) ≢ None)) }
{
    let found = entries.find(&LedgerKey::LiquidityPool { pool_id })?;
    Ok(found.is_some())
}

/// Whether a pool exists, and the lines that an account needs for its shares do.
fn is_share_there(
    entries: &PlacedEntries<'_>,
    id: &AccountId,
    pool_id: Hash,
) -> Result<bool, AllocError>
    ensures { IfOk result (λ there. IsTrue there ↔ All (λ q. get entries.now q ≢ None)
        (key.LiquidityPool pool_id ∷ share_keys id.now (pools_in entries.now pool_id))) }
{
    let pool = has_pool(entries, pool_id)?;
    let params = pool_params(entries, pool_id)?;
    let lines = are_needed_there(entries, id, &params)?;
    Ok(pool && lines)
}

/// Whether what a line needs exists, if it is one of pool shares.
fn are_shares_there(
    entries: &PlacedEntries<'_>,
    id: &AccountId,
    asset: &TrustLineAsset,
) -> Result<bool, AllocError>
    ensures { IfOk result (λ there.
        IsTrue there ↔ All (λ q. get entries.now q ≢ None) (pool_keys (pools_in entries.now) id.now asset.now)) }
{
    match *asset {
        TrustLineAsset::PoolShare(pool_id) => is_share_there(entries, id, pool_id),
        _ => Ok(true),
    }
}

/// Whether what an entry holds or trades in exists, if it is a line of pool shares or an offer. It is known of an
/// offer.
fn are_holders_there(
    entries: &PlacedEntries<'_>,
    traded: bool,
    body: &LedgerEntryBody,
) -> Result<bool, AllocError>
    requires { IsTrue traded ↔ All (λ q. get entries.now q ≢ None) (traded_keys body.now) }
    ensures { IfOk result (λ there.
        IsTrue there ↔ All (λ q. get entries.now q ≢ None) (holding_keys (pools_in entries.now) body.now)) }
{
    match body {
        LedgerEntryBody::TrustLine(line) => {
            are_shares_there(entries, &line.account_id, &line.asset)
        }
        LedgerEntryBody::Offer(_) => Ok(traded),
        _ => Ok(true),
    }
}

/// Whether all four hold.
fn are_all(owner: bool, sponsor: bool, payers: bool, holders: bool) -> bool
    ensures { IsTrue result ↔ (IsTrue owner × IsTrue sponsor × IsTrue payers × IsTrue holders) }
{
    owner && sponsor && payers && holders
}

/// Whether what an entry needs exists, by whether what it trades in does.
pub fn is_owned(
    entries: &PlacedEntries<'_>,
    known: &mut Option<AccountId>,
    traded: bool,
    entry: &LedgerEntry,
) -> Result<bool, AllocError>
    requires there { get entries.now (key_of entry.now) ≢ None }
    requires known { IsKnown entries.now known.old }
    requires traded { IsTrue traded ↔ All (λ q. get entries.now q ≢ None) (traded_keys entry.now.body) }
    ensures answer { IfOk result (λ kept. IsTrue kept ↔ HasNeeded entries.now entry.now) }
    ensures known { IsKnown entries.now known.new }
{
    let owner = does_owner_exist(entries, known, &entry.body)?;
    let sponsor = exists(entries, sponsor_in(&entry.ext))?;
    let payers = do_payers_exist(entries, &entry.body)?;
    let holders = are_holders_there(entries, traded, &entry.body)?;
    Ok(are_all(owner, sponsor, payers, holders))
}
