//! Whether the signers that count reach a weight.

ghost use Rattle.std.specs.Prelude.{◌≡◌, ◌≤◌, length, is_none};
ghost use Rattle.signer_check.specs.Weight.{counted as all_counted, counted_by_signatures, reaches, until_reached};
ghost use Rattle.signer_check.specs.Weight.{used_for};
ghost use Rattle.signer_check.specs.Progress.{missing_after};

use crate::counting::{MAX_COUNTED, count_signer};
use crate::held::HeldSignature;
use crate::kind::SignerKind;
use crate::missing::{missing_after_hash, missing_with};
use item_list::ItemList;
use ledger_types::{Hash, Signer};
use std::mem;

/// What is missing of a weight once the signers of a kind count, in the order of the signatures, or `None` where they
/// reach it. A signature that counts a signer up to there is used from then on.
fn missing_after_kind(
    kind: SignerKind,
    signatures: &mut [HeldSignature],
    signers: &[Signer],
    needed: u32,
) -> Option<u32>
    requires { length signers.now ≤ MAX_COUNTED }
    ensures missing { result ≡ missing_after needed (counted_by_signatures kind 0 signatures.old signers.now) }
    ensures used { signatures.new ≡
        used_for (until_reached needed 0 (counted_by_signatures kind 0 signatures.old signers.now)) signatures.old }
{
    let mut counted = [false; MAX_COUNTED];
    let mut missing = needed;
    for signature in signatures {
        if let Some(signer) = count_signer(kind, &mut counted, signers, signature) {
            signature.is_used = true;
            missing = missing_with(missing, signer)?;
        }
    }
    Some(missing)
}

/// What is missing of a weight once all signers count, the pre-authorised ones first and then those of each kind, or
/// `None` where they reach it.
fn missing_after_all(
    hash: &Hash,
    signatures: &mut [HeldSignature],
    signers: &[Signer],
    needed: u32,
) -> Option<u32>
    requires { length signers.now ≤ MAX_COUNTED }
    ensures missing { result ≡ missing_after needed (all_counted hash.now signatures.old signers.now) }
    ensures used { signatures.new ≡
        used_for (until_reached needed 0 (all_counted hash.now signatures.old signers.now)) signatures.old }
{
    let missing = missing_after_hash(hash, signers, needed)?;
    let missing = missing_after_kind(SignerKind::HashX, signatures, signers, missing)?;
    let missing = missing_after_kind(SignerKind::Ed25519, signatures, signers, missing)?;
    missing_after_kind(SignerKind::SignedPayload, signatures, signers, missing)
}

/// Whether the signers that count reach a weight. A signature that counts a signer up to there is used from then on.
pub fn reach_in(
    hash: &Hash,
    signatures: &mut ItemList<HeldSignature>,
    signers: &[Signer],
    needed: u32,
) -> bool
    requires { length signers.now ≤ MAX_COUNTED }
    ensures reached { result ≡ reaches needed 0 (all_counted hash.now signatures.old signers.now) }
    ensures used { signatures.new ≡
        used_for (until_reached needed 0 (all_counted hash.now signatures.old signers.now)) signatures.old }
{
    let alloc = signatures.allocator();
    let mut all = mem::replace(signatures, ItemList::new(alloc)).into_vec();
    let missing = missing_after_all(hash, &mut all, signers, needed);
    *signatures = ItemList::from_vec(all);
    missing.is_none()
}
