//! The ranges of an account's signers.

ghost use Rattle.std.specs.Prelude.{◌≢◌, ◌↔◌, All, Some, IsTrue};
ghost use Rattle.std.specs.List.{AllPairs};
ghost use Rattle.entry_slots.specs.AccountExtensions.{sponsorship_of};
ghost use Rattle.close_rules.specs.legal_rules.Ranges.{AreSignersInRange};
ghost use Rattle.image_rules.specs.Signers.{IsSignerInRange, ArePayersOthers, IsBelow};

use crate::parts::sponsorship;
use ledger_types::{AccountEntry, AccountId, Signer, SignerKey};
use std::cmp::Ordering;

/// Whether a signer's key is below another's.
fn is_below(lower: &Signer, upper: &Signer) -> bool
    ensures { IsTrue result ↔ IsBelow lower.now upper.now }
{
    match lower.key.cmp(&upper.key) {
        Ordering::Less => true,
        _ => false,
    }
}

/// Whether the keys of signers rise.
fn do_rise(signers: &[Signer]) -> bool
    ensures { IsTrue result ↔ AllPairs IsBelow signers.now }
{
    for index in 1..signers.len() {
        if !is_below(&signers[index - 1], &signers[index]) {
            return false;
        }
    }
    true
}

/// Whether a signer has a weight of 8 bits that isn't 0, and another key than the account's own.
fn is_signer_in_range(account_id: &AccountId, signer: &Signer) -> bool
    ensures { IsTrue result ↔ IsSignerInRange account_id.now signer.now }
{
    1 <= signer.weight && signer.weight <= 255 && signer.key != SignerKey::Ed25519(account_id.0)
}

/// Whether each signer is in its ranges.
fn is_each_in_range(account_id: &AccountId, signers: &[Signer]) -> bool
    ensures { IsTrue result ↔ All (λ s. IsSignerInRange account_id.now s) signers.now }
{
    for signer in signers {
        if !is_signer_in_range(account_id, signer) {
            return false;
        }
    }
    true
}

/// Whether a sponsor, if there is one, is another account.
fn is_other(account_id: &AccountId, sponsor: Option<AccountId>) -> bool
    ensures { IsTrue result ↔ (sponsor ≢ Some account_id.now) }
{
    sponsor != Some(*account_id)
}

/// Whether no sponsor is the account itself.
fn are_others(account_id: &AccountId, sponsors: &[Option<AccountId>]) -> bool
    ensures { IsTrue result ↔ All (λ s. s ≢ Some account_id.now) sponsors.now }
{
    for sponsor in sponsors {
        if !is_other(account_id, *sponsor) {
            return false;
        }
    }
    true
}

/// Whether there is one item a signer for who pays for it, and that is never the account itself.
fn are_payers_others(account: &AccountEntry) -> bool
    ensures { IsTrue result ↔
        ArePayersOthers account.now.account_id account.now.signers
        (sponsorship_of account.now).signer_sponsoring_ids }
{
    match sponsorship(account) {
        None => true,
        Some(sponsorship) => {
            let sponsors = &sponsorship.signer_sponsoring_ids;
            sponsors.len() == account.signers.len()
                && are_others(&account.account_id, sponsors.as_slice())
        }
    }
}

/// Whether the signers of an account are in their ranges. None that were read are more than 20 (MAX_SIGNERS).
pub fn are_signers_in_range(account: &AccountEntry) -> bool
    ensures { IsTrue result ↔
        AreSignersInRange account.now.account_id account.now.signers
        (sponsorship_of account.now).signer_sponsoring_ids }
{
    let few = account.signers.len() <= 20;
    let rise = do_rise(account.signers.as_slice());
    let each = is_each_in_range(&account.account_id, account.signers.as_slice());
    let payers = are_payers_others(account);
    few && rise && each && payers
}
