//! Entries and signers that are added, moved to other payers and removed.

ghost use Rattle.probe.specs.Ready.{IsReadyLedger};

use crate::ready::is_fine;
use entry_map::{Entries, MapBase};
use ledger_types::{AccountId, Signer, SignerKey};
use sponsor_rules::{
    AddFault, Ctx, add_entry, add_signer, move_entry, move_signer, remove_entry, remove_preauth,
    remove_signer,
};
use std::alloc::{AllocError, Global};
use xdr_core::{Cursor, read_option};
use xdr_entries::{
    AccountIdFormat, read_account_id, read_ledger_entry, read_ledger_key, read_signer_key,
};

/// What a change answers. `NoMemory` also represents a change that can't be made.
pub type Change = Result<(), AddFault>;

/// What all changes say: whose thing is added or whose signer changes, who pays then, where that isn't the owner, and
/// the signer.
#[derive(Clone, Copy)]
struct Terms {
    account: AccountId,
    payer: Option<AccountId>,
    signer: SignerKey,
}

fn read_terms(alloc: Global, input: &mut Cursor<'_>) -> Option<Terms> {
    Some(Terms {
        account: read_account_id(input).ok()?,
        payer: read_option::<AccountIdFormat>(alloc, input).ok()?,
        signer: read_signer_key(input).ok()?,
    })
}

/// What is answered where nothing can be in the way.
fn done(made: Result<(), AllocError>) -> Change {
    match made {
        Ok(()) => Ok(()),
        Err(_) => Err(AddFault::NoMemory),
    }
}

/// Adds an entry of an owner.
fn added(
    alloc: Global,
    entries: &mut Entries<'_, MapBase>,
    are_plain: bool,
    ctx: &Ctx,
    owner: &AccountId,
    input: &mut Cursor<'_>,
) -> Change
    requires { IsReadyLedger are_plain entries.old.current }
{
    let Ok(entry) = read_ledger_entry(alloc, input) else {
        return Err(AddFault::NoMemory);
    };
    if !is_fine(&entry) {
        return Err(AddFault::NoMemory);
    }
    add_entry(entries, ctx, owner, entry)
}

/// Moves what has a key to a payer, or removes it.
fn changed_at_key(
    alloc: Global,
    entries: &mut Entries<'_, MapBase>,
    are_plain: bool,
    ctx: &Ctx,
    name: &str,
    payer: Option<AccountId>,
    input: &mut Cursor<'_>,
) -> Change
    requires { IsReadyLedger are_plain entries.old.current }
{
    match read_ledger_key(alloc, input) {
        Ok(key) if name == "move" => move_entry(entries, ctx, &key, payer),
        Ok(key) => done(remove_entry(entries, ctx, &key)),
        Err(_) => Err(AddFault::NoMemory),
    }
}

/// Removes the signer that is a transaction.
fn preauth_removed(entries: &mut Entries<'_, MapBase>, ctx: &Ctx, terms: &Terms) -> Change {
    match terms.signer {
        SignerKey::PreAuthTx(hash) => done(remove_preauth(entries, ctx, &terms.account, &hash)),
        _ => Err(AddFault::NoMemory),
    }
}

/// Makes the change of a name, by what all changes say.
fn changed_by(
    alloc: Global,
    entries: &mut Entries<'_, MapBase>,
    are_plain: bool,
    ctx: &Ctx,
    name: &str,
    terms: &Terms,
    input: &mut Cursor<'_>,
) -> Change
    requires { IsReadyLedger are_plain entries.old.current }
{
    let (account, key) = (&terms.account, terms.signer);
    match name.as_bytes() {
        b"add" => added(alloc, entries, are_plain, ctx, account, input),
        b"add_signer" => add_signer(entries, ctx, account, Signer { key, weight: 1 }),
        b"move_signer" => move_signer(entries, ctx, account, &key, terms.payer),
        b"remove_signer" => done(remove_signer(entries, ctx, account, &key)),
        b"remove_preauth" => preauth_removed(entries, ctx, terms),
        _ => changed_at_key(alloc, entries, are_plain, ctx, name, terms.payer, input),
    }
}

/// Makes the change of a name.
pub fn changed(
    alloc: Global,
    entries: &mut Entries<'_, MapBase>,
    are_plain: bool,
    ctx: &Ctx,
    name: &str,
    input: &mut Cursor<'_>,
) -> Change
    requires { IsReadyLedger are_plain entries.old.current }
{
    match read_terms(alloc, input) {
        Some(terms) => changed_by(alloc, entries, are_plain, ctx, name, &terms, input),
        None => Err(AddFault::NoMemory),
    }
}
