//! The entries of accounts in the ledger from which a sample begins.

ghost use Rattle.std.specs.Prelude.{◌≡◌, ◌<◌, IfOk};
ghost use Rattle.sample_ledger.specs.Accounts as spec;
ghost use Rattle.sample_ledger.specs.Image.{account_count};

use crate::accounts::Accounts;
use hash_ids::hash;
use item_list::ItemList;
use ledger_types::{AccountEntry, LedgerEntry, LedgerEntryBody, Signer, SignerKey};
use std::alloc::{AllocError, Global};

/// The signer of an account.
fn signer(alloc: Global, accounts: &Accounts, account: u32) -> Result<Signer, AllocError>
    ensures { IfOk result (λ signer. signer ≡ spec.signer_of accounts.now account) }
{
    let secret = accounts.secret(alloc, account)?;
    Ok(Signer {
        key: SignerKey::HashX(hash(secret.as_slice())),
        weight: 1,
    })
}

/// The flags of an account.
fn flags_of(account: u32) -> u32
    ensures { result ≡ spec.flags_of account }
{
    if account == 0 { 10 } else { 0 }
}

/// An account.
fn account_entry(
    alloc: Global,
    accounts: &Accounts,
    account: u32,
) -> Result<AccountEntry, AllocError>
    requires { account < account_count }
    ensures { IfOk result (λ entry. entry ≡ spec.account_entry accounts.now account) }
{
    let signer = signer(alloc, accounts, account)?;
    Ok(AccountEntry {
        account_id: accounts.id(account),
        balance: 1_000_000_000_000,
        seq_num: 0,
        num_sub_entries: 1,
        inflation_dest: None,
        flags: flags_of(account),
        home_domain: ItemList::new(alloc),
        thresholds: [0, 1, 1, 1],
        signers: ItemList::from_slice(alloc, &[signer])?,
        ext: None,
    })
}

/// The entry of an account.
pub(crate) fn ledger_entry(
    alloc: Global,
    accounts: &Accounts,
    account: u32,
) -> Result<LedgerEntry, AllocError>
    requires { account < account_count }
    ensures { IfOk result (λ entry. entry ≡ spec.ledger_entry accounts.now account) }
{
    let entry = account_entry(alloc, accounts, account)?;
    Ok(LedgerEntry {
        last_modified_ledger_seq: 1,
        body: LedgerEntryBody::Account(entry),
        ext: None,
    })
}
