//! What protocol 19 brought to accounts, as a ledger of a version, a number and a close time lets it be.

ghost use Rattle.std.specs.Prelude.{◌≡◌, ◌↔◌, All, IsTrue};
ghost use Rattle.entry_slots.specs.AccountExtensions.{second_in, third_in};
ghost use Rattle.close_rules.specs.legal_rules.Dated as spec;

use ledger_types::{AccountEntry, AccountEntryExtensionV3, LedgerEntryBody, Signer, SignerKey};

/// The first version in which accounts record when their sequence numbers were set, and have signed payloads as signers
/// (CAP-0021, CAP-0040).
const DATED_FROM: u32 = 19;

/// Whether the ledger and the close time that are recorded aren't later ones.
fn is_third_dated(
    version: u32,
    seq: u32,
    close_time: u64,
    third: Option<AccountEntryExtensionV3>,
) -> bool
    ensures { IsTrue result ↔ spec.IsThirdDated version seq close_time third }
{
    match third {
        None => true,
        Some(third) => {
            DATED_FROM <= version && third.seq_ledger <= seq && third.seq_time <= close_time
        }
    }
}

/// Whether a signed payload may be there, and isn't empty.
fn is_key_dated(version: u32, key: &SignerKey) -> bool
    ensures { IsTrue result ↔ spec.IsKeyDated version key.now }
{
    match key {
        SignerKey::SignedPayload { payload, .. } => {
            DATED_FROM <= version && !payload.as_slice().is_empty()
        }
        _ => true,
    }
}

/// Whether each signer's key is dated.
fn are_signers_dated(version: u32, signers: &[Signer]) -> bool
    ensures { IsTrue result ↔ All (λ signer. spec.IsKeyDated version signer.key) signers.now }
{
    for signer in signers {
        if !is_key_dated(version, &signer.key) {
            return false;
        }
    }
    true
}

/// When an account's sequence number was set, as far as it is recorded.
fn third_of(account: &AccountEntry) -> Option<AccountEntryExtensionV3>
    ensures { result ≡ third_in (second_in account.now.ext) }
{
    match &account.ext {
        Some(first) => match &first.ext {
            Some(second) => second.ext,
            None => None,
        },
        None => None,
    }
}

/// Whether an account is dated.
fn is_account_dated(version: u32, seq: u32, close_time: u64, account: &AccountEntry) -> bool
    ensures { IsTrue result ↔ spec.IsAccountDated version seq close_time account.now }
{
    is_third_dated(version, seq, close_time, third_of(account))
        && are_signers_dated(version, account.signers.as_slice())
}

/// Whether what an entry is, is dated.
pub fn is_body_dated(version: u32, seq: u32, close_time: u64, body: &LedgerEntryBody) -> bool
    ensures { IsTrue result ↔ spec.IsBodyDated version seq close_time body.now }
{
    match body {
        LedgerEntryBody::Account(account) => is_account_dated(version, seq, close_time, account),
        _ => true,
    }
}
