//! What an entry names and how often it counts.

ghost use Rattle.std.specs.Prelude.{◌≡◌, pos, count_by};
ghost use Rattle.std.specs.Option.{option_copied};
ghost use Rattle.entry_slots.specs.AccountExtensions.{second_in};
ghost use Rattle.sponsor_rules.specs.Charge as charge;
ghost use Rattle.close_rules.specs.sponsor_laws.Sums.{is_there};
ghost use Rattle.close_rules.specs.legal_rules.Reserves as spec;
ghost use Rattle.image_rules.specs.Aggregates as aggregates;

use ledger_types::{AccountEntry, AccountEntryExtensionV2, AccountId, LedgerEntryBody};
use sponsor_rules::{Charge, charge_of};

/// Whose an entry is, if it is somebody's.
pub fn owner_of(body: &LedgerEntryBody) -> Option<AccountId>
    ensures { result ≡ charge.owner_of body.now }
{
    match charge_of(body) {
        Charge::Itself { owner } => Some(owner),
        Charge::Subentry {
            owner,
            multiplicity: _,
        } => Some(owner),
        _ => None,
    }
}

/// The owner of what isn't an account. An account is its own.
pub fn other_owner(body: &LedgerEntryBody) -> Option<AccountId>
    ensures { result ≡ aggregates.other_owner body.now }
{
    match body {
        LedgerEntryBody::Account(_) => None,
        _ => owner_of(body),
    }
}

/// How many reserves an entry charges.
pub fn multiplicity(body: &LedgerEntryBody) -> u64
    ensures { result ≡ charge.multiplicity body.now }
{
    match charge_of(body) {
        Charge::Itself { owner: _ } => 2,
        Charge::Subentry {
            owner: _,
            multiplicity,
        } => multiplicity,
        Charge::Payer { multiplicity } => multiplicity,
        Charge::Nobody => 0,
    }
}

/// How many subentries an entry counts for its owner.
pub fn subentries_in(body: &LedgerEntryBody) -> u64
    ensures { result ≡ spec.subentries_in body.now }
{
    match body {
        LedgerEntryBody::Account(account) => account.signers.len() as u64,
        LedgerEntryBody::ClaimableBalance(_) => 0,
        LedgerEntryBody::LiquidityPool(_) => 0,
        _ => multiplicity(body),
    }
}

/// What an account says of sponsorship, if it says anything.
pub fn sponsorship(account: &AccountEntry) -> Option<&AccountEntryExtensionV2>
    ensures { option_copied result ≡ second_in account.now.ext }
{
    match &account.ext {
        None => None,
        Some(ext) => ext.ext.as_ref(),
    }
}

/// How many sponsors are named.
fn count_sponsors(ids: &[Option<AccountId>]) -> u64
    ensures { result ≡ count_by is_there ids.now }
{
    ids.iter().filter(|id| id.is_some()).count() as u64
}

/// How many signers in an entry have a sponsor.
pub fn sponsored_signers(body: &LedgerEntryBody) -> u64
    ensures { result ≡ count_by is_there (spec.signer_sponsors_in body.now) }
{
    match body {
        LedgerEntryBody::Account(account) => match sponsorship(account) {
            None => 0,
            Some(sponsorship) => count_sponsors(sponsorship.signer_sponsoring_ids.as_slice()),
        },
        _ => 0,
    }
}
