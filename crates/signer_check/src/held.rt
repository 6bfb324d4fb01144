//! Signatures as checks see them.

ghost use Rattle.std.specs.Prelude.{◌≡◌, IfOk};
ghost use Rattle.signer_check.specs.Weight.{held};

use crate::vouches::VouchIndex;
use hash_ids::hash;
use item_list::ItemList;
use ledger_types::{Hash, SignerKey};
use op_types::DecoratedSignature;
use std::alloc::{AllocError, Global};

/// What a signature shows, and whether a check used it.
#[derive(Drop)]
pub struct HeldSignature {
    /// The last four bytes of the signer's key, as the signature says.
    pub hint: [u8; 4],
    /// SHA-256 of the signature's bytes.
    pub digest: Hash,
    /// Whose signature it is, by the vouches: the keys that signed the hash which is checked, and the keys that signed
    /// a payload.
    pub vouched: ItemList<SignerKey>,
    /// Whether a check counted a signer by it.
    pub is_used: bool,
}

impl HeldSignature {
    /// What a signature over a hash shows, before any check.
    pub fn of(
        alloc: Global,
        hash_checked: &Hash,
        vouches: &VouchIndex<'_>,
        signature: &DecoratedSignature,
    ) -> Result<HeldSignature, AllocError>
        ensures { IfOk result (λ s. s ≡ held hash_checked.now vouches.now signature.now) }
    {
        Ok(HeldSignature {
            hint: signature.hint,
            digest: hash(signature.signature.as_slice()),
            vouched: vouches.keys_of(alloc, hash_checked, signature.signature.as_slice())?,
            is_used: false,
        })
    }
}
