//! Vouches by their signatures, so that a transaction meets those of its own signatures alone.

ghost use Rattle.std.specs.Prelude.{◌≡◌, IfOk, IfSome};
ghost use Rattle.signer_check.specs.Weight.{vouched_key as key_of, vouched_keys};

use crate::groups::{VouchGroups, push_vouch};
use item_list::ItemList;
use ledger_types::{Bytes64, Hash, SignerKey};
use op_types::Vouch;
use std::alloc::{AllocError, Global};
use std::marker::Model;

/// The vouches of a record, found by their signatures. Contracts see the list.
#[derive(Drop)]
pub struct VouchIndex<'a> {
    vouches: &'a [Vouch],
    groups: VouchGroups,
}

impl<'a> Model for VouchIndex<'a> {
    ghost use Rattle.std.specs.Prelude.{List};
    ghost use Rattle.std.specs.Coded.{coded_list};
    ghost use Rattle.op_types.specs.declared.vouch.Vouch.{Vouch};
    ghost use Rattle.op_types.specs.contracts.vouch.Vouch as vouch;
    ghost use Rattle.signer_check.specs.Groups.{AreGrouped};

    ghost Value = { List Vouch };

    ghost coded = { coded_list vouch.the_row.coded };

    ghost view = { λ index. index.vouches.now };

    ghost invariant = { λ index. AreGrouped index.groups index.vouches.now };
}

/// Whose signature of these bytes a vouch is for: a key's over this hash, or a key's over a payload.
fn vouched_key(hash: &Hash, bytes: &[u8], vouch: &Vouch) -> Option<SignerKey>
    ensures { result ≡ key_of hash.now bytes.now vouch.now }
{
    match vouch {
        Vouch::Hash {
            ed25519,
            hash: over,
            signature,
        } => {
            if signature.as_slice() == bytes && over.0 == hash.0 {
                Some(SignerKey::Ed25519(*ed25519))
            } else {
                None
            }
        }
        Vouch::Payload {
            ed25519,
            payload,
            signature,
        } => {
            if signature.as_slice() == bytes {
                Some(SignerKey::SignedPayload {
                    ed25519: *ed25519,
                    payload: *payload,
                })
            } else {
                None
            }
        }
    }
}

/// The keys whose signature of these bytes the vouches are for, in their order.
fn keys_among(
    alloc: Global,
    hash: &Hash,
    bytes: &[u8],
    vouches: &[Vouch],
) -> Result<Vec<SignerKey>, AllocError>
    ensures { IfOk result (λ keys. keys.items ≡ vouched_keys hash.now vouches.now bytes.now) }
{
    vouches
        .iter()
        .filter_map(|vouch| vouched_key(hash, bytes, vouch))
        .collect(alloc)
}

impl<'a> VouchIndex<'a> {
    /// The vouches of a record, each found by its signature.
    pub fn new(alloc: Global, vouches: &'a [Vouch]) -> Result<VouchIndex<'a>, AllocError>
        ensures { IfOk result (λ index. index ≡ vouches.now) }
    {
        let mut groups = VouchGroups::new(alloc);
        for vouch in vouches {
            push_vouch(alloc, &mut groups, vouch)?;
        }
        Ok(VouchIndex { vouches, groups })
    }

    /// The keys whose signature these bytes are, by the vouches over a hash and those over payloads, in the order of
    /// the vouches.
    pub fn keys_of(
        &self,
        alloc: Global,
        hash: &Hash,
        bytes: &[u8],
    ) -> Result<ItemList<SignerKey>, AllocError>
        ensures { IfOk result (λ keys. keys ≡ vouched_keys hash.now self.now bytes.now) }
    {
        // Of more than 64 bytes there is no vouch; that no vouch has as many isn't known here.
        let Some(signature) = Bytes64::from_slice(bytes) else {
            return Ok(ItemList::from_vec(keys_among(alloc, hash, bytes, self.vouches)?));
        };
        match self.groups.get(&signature) {
            None => Ok(ItemList::new(alloc)),
            Some(group) => Ok(ItemList::from_vec(keys_among(
                alloc,
                hash,
                bytes,
                group.as_slice(),
            )?)),
        }
    }
}
