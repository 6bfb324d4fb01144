//! Which signers a transaction's hash and its signatures match.

ghost use Rattle.std.specs.Prelude.{◌≡◌};
ghost use Rattle.std.specs.Ordering.{eq_by_cmp};
ghost use Rattle.ledger_types.specs.KeyOrder.{signer_key_cmp};
ghost use Rattle.signer_check.specs.Weight.{is_authorised as authorises, matches_key as key_matches};
ghost use Rattle.signer_check.specs.Weight.{is_vouched as key_is_vouched, last_four as four_last};
ghost use Rattle.signer_check.specs.Weight.{payload_hint as hint_of_payload};
ghost use Rattle.signer_check.specs.declared.kind.SignerKind.TheVariants as kinds;

use crate::held::HeldSignature;
use crate::kind::SignerKind;
use ledger_types::{Hash, SignerKey};
use std::cmp::Ordering;

/// Whether a key is that of the transaction with this hash, authorised beforehand.
pub fn is_authorised(hash: &Hash, key: &SignerKey) -> bool
    ensures { result ≡ authorises hash.now key.now }
{
    match key {
        SignerKey::PreAuthTx(wanted) => wanted.0 == hash.0,
        SignerKey::Ed25519(_) | SignerKey::HashX(_) | SignerKey::SignedPayload { .. } => false,
    }
}

/// Whether two keys are the same.
#[tactic(auto, using(ledger_types::proofs::KeyOrdering::signer_key_laws))]
fn is_same_key(a: &SignerKey, b: &SignerKey) -> bool
    ensures { result ≡ eq_by_cmp signer_key_cmp a.now b.now }
{
    a.cmp(b) == Ordering::Equal
}

/// Whether a vouch says that a signature is a key's.
fn is_vouched(signature: &HeldSignature, key: &SignerKey) -> bool
    ensures { result ≡ key_is_vouched signature.now key.now }
{
    signature
        .vouched
        .as_slice()
        .iter()
        .any(|vouched| is_same_key(key, vouched))
}

/// The last four bytes, after which zeros stand in for missing ones.
fn last_four(bytes: &[u8]) -> [u8; 4]
    ensures { result ≡ four_last bytes.now }
{
    let mut four = [0; 4];
    let last = &bytes[bytes.len().saturating_sub(4)..];
    four[..last.len()].copy_from_slice(last);
    four
}

/// The hint of a signed payload: the last four bytes of its key, each with one of the payload's last four (CAP-0040).
fn payload_hint(ed25519: &[u8; 32], payload: &[u8]) -> [u8; 4]
    ensures { result ≡ hint_of_payload ed25519.now payload.now }
{
    let last = last_four(payload);
    [
        ed25519[28] ^ last[0],
        ed25519[29] ^ last[1],
        ed25519[30] ^ last[2],
        ed25519[31] ^ last[3],
    ]
}

/// Whether a signature matches a hash-x key: the key's last four bytes are its hint, and the key is its SHA-256.
fn matches_hash_x(signature: &HeldSignature, key: &SignerKey) -> bool
    ensures { result ≡ key_matches kinds.HashX signature.now key.now }
{
    match key {
        SignerKey::HashX(wanted) => {
            signature.hint.as_slice() == wanted.0.split_at(28).1 && signature.digest.0 == wanted.0
        }
        _ => false,
    }
}

/// Whether a signature matches an Ed25519 key: the key's last four bytes are its hint, and it is vouched for.
fn matches_ed25519(signature: &HeldSignature, key: &SignerKey) -> bool
    ensures { result ≡ key_matches kinds.Ed25519 signature.now key.now }
{
    match key {
        SignerKey::Ed25519(ed25519) => {
            signature.hint.as_slice() == ed25519.split_at(28).1 && is_vouched(signature, key)
        }
        _ => false,
    }
}

/// Whether a signature matches a signed payload: the hint is the payload's, and it is vouched for.
fn matches_payload(signature: &HeldSignature, key: &SignerKey) -> bool
    ensures { result ≡ key_matches kinds.SignedPayload signature.now key.now }
{
    match key {
        SignerKey::SignedPayload { ed25519, payload } => {
            signature.hint == payload_hint(ed25519, payload.as_slice())
                && is_vouched(signature, key)
        }
        _ => false,
    }
}

/// Whether a signature matches a key of a kind.
pub fn matches_key(kind: SignerKind, signature: &HeldSignature, key: &SignerKey) -> bool
    ensures { result ≡ key_matches kind signature.now key.now }
{
    match kind {
        SignerKind::HashX => matches_hash_x(signature, key),
        SignerKind::Ed25519 => matches_ed25519(signature, key),
        SignerKind::SignedPayload => matches_payload(signature, key),
    }
}
