//! Checks of a transaction's signatures.

ghost use Rattle.std.specs.Prelude.{◌≡◌, ◌≤◌, ◌↔◌, IsTrue, true, length, map, replicate, take, All, IfOk};
ghost use Rattle.signer_check.specs.Weight.{held, succeeds, after_check, extra_succeeds, after_extra};
ghost use Rattle.signer_check.specs.Weight.{lone_succeeds, after_lone};
ghost use Rattle.signer_check.specs.Weight as spec;

use crate::counting::MAX_COUNTED;
use crate::held::HeldSignature;
use crate::reaching::reach_in;
use crate::vouches::VouchIndex;
use item_list::ItemList;
use ledger_types::{AccountEntry, AccountId, Hash, Signer, SignerKey};
use op_types::{DecoratedSignature, Vouch};
use std::alloc::{AllocError, Global};
use std::marker::Model;

/// A key as a signer of weight 1.
fn extra_signer(key: &SignerKey) -> Signer
    ensures { result ≡ record { key = key.now; weight = 1 } }
{
    Signer {
        key: *key,
        weight: 1,
    }
}

/// An account's own key as a signer, with the weight of its first threshold.
fn own_signer(account: &AccountEntry) -> Signer
    ensures { result ≡ spec.own_signer account.now }
{
    Signer {
        key: SignerKey::Ed25519(account.account_id.0),
        weight: u32::from(account.thresholds[0]),
    }
}

/// Puts the signers of an account at the beginning of a table that has its own key everywhere, and answers how many
/// there are: its own key counts, after those in its list, unless its weight is 0.
fn put_signers(account: &AccountEntry, signers: &mut [Signer; MAX_COUNTED]) -> usize
    requires few { length account.now.signers ≤ 20 }
    requires own { signers.old ≡ replicate MAX_COUNTED (spec.own_signer account.now) }
    ensures count { result ≡ length (spec.signers_of account.now) }
    ensures signers { take result signers.new ≡ spec.signers_of account.now }
{
    let listed = account.signers.as_slice();
    signers[..listed.len()].copy_from_slice(listed);
    if account.thresholds[0] == 0 {
        listed.len()
    } else {
        listed.len() + 1
    }
}

/// The signatures of a transaction, and which of them the checks so far used (SignatureChecker in stellar-core).
#[derive(Drop)]
pub struct Checker {
    /// The hash of the transaction.
    hash: Hash,
    /// Its signatures, in their order.
    signatures: ItemList<HeldSignature>,
}

impl Model for Checker {
    ghost use Rattle.signer_check.specs.Checks.{Checks, checks_code};

    ghost Value = { Checks };

    ghost coded = { checks_code };

    ghost view = { λ checker. record { hash = checker.hash; signatures = checker.signatures } };
}

impl Checker {
    /// The signatures of the transaction with this hash, of which none is used, and what the vouches say of them. It
    /// takes all the memory that checks need.
    pub fn new(
        alloc: Global,
        hash: &Hash,
        signatures: &[DecoratedSignature],
        vouches: &[Vouch],
    ) -> Result<Checker, AllocError>
        ensures { IfOk result (λ checker. checker ≡
            record { hash = hash.now; signatures = map (held hash.now vouches.now) signatures.now }) }
    {
        let index = VouchIndex::new(alloc, vouches)?;
        Checker::over(alloc, hash, signatures, &index)
    }

    /// The same by vouches that are found by their signatures.
    pub fn over(
        alloc: Global,
        hash: &Hash,
        signatures: &[DecoratedSignature],
        vouches: &VouchIndex<'_>,
    ) -> Result<Checker, AllocError>
        ensures { IfOk result (λ checker. checker ≡
            record { hash = hash.now; signatures = map (held hash.now vouches.now) signatures.now }) }
    {
        let mut all = ItemList::new(alloc);
        for signature in signatures {
            all.push(HeldSignature::of(alloc, hash, vouches, signature)?)?;
        }
        Ok(Checker {
            hash: *hash,
            signatures: all,
        })
    }

    /// Whether the signatures reach a weight for an account: pre-authorised signers count first, and then, by the
    /// signatures in their order, hash-x signers, Ed25519 signers and signed payloads, each signer once and with at
    /// most 255. The account's own key comes after the signers in its list. The check ends as soon as a signer that
    /// counts brings the sum to `needed`, so a threshold of 0 takes one signer. It takes no memory.
    pub fn check(&mut self, account: &AccountEntry, needed: u32) -> bool
        requires { length account.now.signers ≤ 20 }
        ensures succeeds { result ≡ succeeds self.old.hash self.old.signatures account.now needed }
        ensures used { self.new ≡
            record self.old { signatures = after_check self.old.hash self.old.signatures account.now needed } }
    {
        let mut signers = [own_signer(account); MAX_COUNTED];
        let count = put_signers(account, &mut signers);
        reach_in(&self.hash, &mut self.signatures, &signers[..count], needed)
    }

    /// Whether a signature is that of an account which doesn't exist: its own key is its one signer, with the weight 1,
    /// and any signer that counts is enough. It takes no memory.
    pub fn check_lone(&mut self, id: &AccountId) -> bool
        ensures succeeds { result ≡ lone_succeeds self.old.hash self.old.signatures id.now }
        ensures used { self.new ≡
            record self.old { signatures = after_lone self.old.hash self.old.signatures id.now } }
    {
        let signer = Signer {
            key: SignerKey::Ed25519(id.0),
            weight: 1,
        };
        reach_in(&self.hash, &mut self.signatures, &[signer], 0)
    }

    /// Whether the signatures are of all extra signers, at most 2 (CAP-0021): each counts once, with the weight 1.
    /// Without extra signers there is no check. It takes no memory.
    pub fn check_extra(&mut self, signers: &[SignerKey]) -> bool
        requires { length signers.now ≤ 2 }
        ensures succeeds { result ≡ extra_succeeds self.old.hash self.old.signatures signers.now }
        ensures used { self.new ≡
            record self.old { signatures = after_extra self.old.hash self.old.signatures signers.now } }
    {
        match signers {
            [] => true,
            [only] => reach_in(&self.hash, &mut self.signatures, &[extra_signer(only)], 1),
            [first, second] => {
                let both = [extra_signer(first), extra_signer(second)];
                reach_in(&self.hash, &mut self.signatures, &both, 2)
            }
            _ => false,
        }
    }

    /// Whether each signature was used by some check. It takes no memory.
    pub fn all_used(&self) -> bool
        ensures { IsTrue result ↔ All (λ signature. signature.is_used ≡ true) self.now.signatures }
    {
        self.signatures
            .as_slice()
            .iter()
            .all(|signature| signature.is_used)
    }
}
