//! Changes of an account's signers.

ghost use Rattle.std.specs.Prelude.{◌≡◌, OnOk, slice_set};
ghost use Rattle.std.specs.List.{insert, remove};
ghost use Rattle.sponsor_rules.specs.Keeping.{KeepsCore, RaisesNoCount};
ghost use Rattle.sponsor_rules.specs.SignerIndex as spec;

use crate::signer_index::index_for;
use item_list::ItemList;
use ledger_types::{AccountEntry, AccountId, Signer};
use std::alloc::AllocError;

/// Puts a signer at its index among those of an account, and its sponsor, or none, at the same index among the signers'
/// sponsors, where the account has that list: a sponsored count has added it by then.
pub fn insert_signer(
    account: &mut AccountEntry,
    signer: Signer,
    sponsor: Option<AccountId>,
) -> Result<(), AllocError>
    ensures inserted { OnOk result (account.new ≡ spec.with_signer signer sponsor account.old) }
    ensures core { OnOk result (KeepsCore account.old account.new) }
{
    let index = index_for(&signer.key, account.signers.as_slice());
    account.signers.insert(index, signer)?;
    if let Some(ext) = &mut account.ext {
        if let Some(sponsorship) = &mut ext.ext {
            insert_sponsor(&mut sponsorship.signer_sponsoring_ids, index, sponsor)?;
        }
    }
    Ok(())
}

/// Takes the signer at an index out, where there is one, and its sponsor.
pub fn remove_signer_at(account: &mut AccountEntry, index: usize)
    ensures removed { account.new ≡ spec.without_signer index account.old }
    ensures low { RaisesNoCount account.old account.new }
    ensures core { KeepsCore account.old account.new }
{
    if index < account.signers.len() {
        account.signers.remove(index);
    }
    if let Some(ext) = &mut account.ext {
        if let Some(sponsorship) = &mut ext.ext {
            remove_sponsor(&mut sponsorship.signer_sponsoring_ids, index);
        }
    }
}

/// Records another sponsor, or none, of the signer at an index, where the account has the list of signers' sponsors.
pub fn set_signer_sponsor(account: &mut AccountEntry, index: usize, sponsor: Option<AccountId>)
    ensures set { account.new ≡ spec.with_signer_sponsor index sponsor account.old }
    ensures core { KeepsCore account.old account.new }
{
    if let Some(ext) = &mut account.ext {
        if let Some(sponsorship) = &mut ext.ext {
            set_sponsor_at(&mut sponsorship.signer_sponsoring_ids, index, sponsor);
        }
    }
}

/// Puts a sponsor at an index, or at the end where there are fewer.
fn insert_sponsor(
    sponsors: &mut ItemList<Option<AccountId>>,
    index: usize,
    sponsor: Option<AccountId>,
) -> Result<(), AllocError>
    ensures { OnOk result (sponsors.new ≡ insert sponsors.old index sponsor) }
{
    if index < sponsors.len() {
        sponsors.insert(index, sponsor)
    } else {
        sponsors.push(sponsor)
    }
}

/// Takes the sponsor at an index out, where there is one.
fn remove_sponsor(sponsors: &mut ItemList<Option<AccountId>>, index: usize)
    ensures { sponsors.new ≡ remove sponsors.old index }
{
    if index < sponsors.len() {
        sponsors.remove(index);
    }
}

/// Puts a sponsor in place of the one at an index, where there is one.
fn set_sponsor_at(
    sponsors: &mut ItemList<Option<AccountId>>,
    index: usize,
    sponsor: Option<AccountId>,
)
    ensures { sponsors.new ≡ slice_set sponsors.old index sponsor }
{
    if index < sponsors.len() {
        sponsors.set(index, sponsor);
    }
}
