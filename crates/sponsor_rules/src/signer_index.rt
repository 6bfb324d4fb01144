//! Where signers are, and who pays for them.

ghost use Rattle.std.specs.Prelude.{◌≡◌, ◌≤◌, length, IfOk, Some};
ghost use Rattle.std.specs.Option.{option_copied};
ghost use Rattle.ledger_types.specs.KeyOrder.{signer_key_cmp};
ghost use Rattle.reserve_rules.specs.entry_slots.Accounts.{account_at, account_of, account_of_slot};
ghost use Rattle.sponsor_rules.specs.SignerIndex as spec;

use ledger_types::{AccountEntry, AccountId, LedgerEntry, LedgerKey, Signer, SignerKey};
use reserve_rules::entry_map::{Base, Entries};
use reserve_rules::entry_slots::{AccountSlot, account_in, signer_sponsor};
use std::alloc::AllocError;
use std::cmp::Ordering;

/// The index of a signer among those of its account, and who pays its reserve in the account's place.
#[derive(Clone, Copy)]
pub struct FoundSigner {
    pub index: usize,
    pub sponsor: Option<AccountId>,
}

/// The order of signers' keys: by arm, and then by bytes.
#[tactic(auto, using(ledger_types::proofs::KeyOrdering::signer_key_laws))]
fn compare(a: &SignerKey, b: &SignerKey) -> Ordering
    ensures { result ≡ signer_key_cmp a.now b.now }
{
    a.cmp(b)
}

/// The index of a new signer with this key: after the signers at the start that have lower keys.
pub fn index_for(key: &SignerKey, signers: &[Signer]) -> usize
    ensures index { result ≡ spec.index_for key.now signers.now }
    ensures within { result ≤ length signers.now }
{
    match signers {
        [first, others @ ..] if compare(&first.key, key) == Ordering::Less => {
            1 + index_for(key, others)
        }
        _ => 0,
    }
}

/// The index of the signer with this key.
#[tactic(auto, unfolding(crate::specs::SignerIndex::index_of))]
fn index_of(key: &SignerKey, signers: &[Signer]) -> Option<usize>
    ensures { result ≡ spec.index_of key.now signers.now }
{
    signers
        .iter()
        .position(|signer| compare(&signer.key, key) == Ordering::Equal)
}

/// The index of the signer with a key among those of an account, and who pays for it.
pub fn found_signer(key: &SignerKey, slot: &Option<AccountSlot>) -> Option<FoundSigner>
    ensures { result ≡ spec.found_signer key.now (account_of_slot slot.now) }
{
    match slot {
        None => None,
        Some(slot) => signer_in(key, &slot.account),
    }
}

/// The index of the signer with a key among those of an account that exists.
fn signer_in(key: &SignerKey, account: &AccountEntry) -> Option<FoundSigner>
    ensures { result ≡ spec.found_signer key.now (Some account.now) }
{
    let index = index_of(key, account.signers.as_slice())?;
    Some(FoundSigner {
        index,
        sponsor: signer_sponsor(account, index),
    })
}

/// The index of the signer with a key among those of an account's entry, and who pays for it.
fn signer_of_entry(key: &SignerKey, entry: Option<&LedgerEntry>) -> Option<FoundSigner>
    ensures { result ≡ spec.found_signer key.now (account_of (option_copied entry.entry)) }
{
    signer_in(key, account_in(entry)?)
}

/// The index of the signer with a key among those of the account with an id, and who pays for it. An account that has
/// changed is looked at where it is.
pub fn find_signer<B: Base>(
    entries: &Entries<'_, B>,
    account: &AccountId,
    key: &SignerKey,
) -> Result<Option<FoundSigner>, AllocError>
    ensures { IfOk result (λ found. found ≡
        spec.found_signer key.now (account_at entries.now.current account.now)) }
{
    let account = LedgerKey::Account {
        account_id: *account,
    };
    match entries.changed(&account) {
        Some(entry) => Ok(signer_of_entry(key, entry)),
        None => Ok(signer_of_entry(key, entries.base_entry(&account)?.as_ref())),
    }
}
