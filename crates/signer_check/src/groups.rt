//! Lists of vouches under their signatures.

ghost use Rattle.std.specs.Prelude.{◌≡◌, ℕ, [], ◌∷◌, ◌++◌, List, false, OnOk};
ghost use Rattle.std.specs.Str.{bytes_eq};
ghost use Rattle.op_types.specs.declared.vouch.Vouch.{Vouch as AVouch};
ghost use Rattle.signer_check.specs.Groups as spec;

use item_list::ItemList;
use ledger_types::Bytes64;
use op_types::Vouch;
use std::alloc::{AllocError, Global};
use std::collections::BTreeMap;

/// Lists of vouches, each under the signature that they are for.
pub type VouchGroups = BTreeMap<Bytes64, ItemList<Vouch>>;

/// The signature that a vouch is for.
fn signature_of(vouch: &Vouch) -> Bytes64
    ensures { result ≡ spec.signature_of vouch.now }
{
    match vouch {
        Vouch::Hash { signature, .. } => *signature,
        Vouch::Payload { signature, .. } => *signature,
    }
}

/// Takes the list under a signature out, or an empty one where there is none.
fn take_group(alloc: Global, groups: &mut VouchGroups, signature: &Bytes64) -> ItemList<Vouch>
    ensures list { result ≡ spec.group_at groups.old signature.now }
    ensures others { (q : List ℕ) → bytes_eq signature.now q ≡ false
        → spec.group_at groups.new q ≡ spec.group_at groups.old q }
{
    match groups.remove(signature) {
        Some(list) => list,
        None => ItemList::new(alloc),
    }
}

/// Puts a list under a signature.
fn put_group(
    groups: &mut VouchGroups,
    signature: Bytes64,
    list: ItemList<Vouch>,
) -> Result<(), AllocError>
    ensures list { OnOk result (spec.group_at groups.new signature ≡ list) }
    ensures others { OnOk result ((q : List ℕ) → bytes_eq signature q ≡ false
        → spec.group_at groups.new q ≡ spec.group_at groups.old q) }
{
    groups.insert(signature, list)?;
    Ok(())
}

/// Puts a vouch at the end of the list under its signature. Where memory is refused the lists may only be dropped.
pub fn push_vouch(alloc: Global, groups: &mut VouchGroups, vouch: &Vouch) -> Result<(), AllocError>
    ensures { OnOk result ((vouches : List AVouch) → spec.AreGrouped groups.old vouches
        → spec.AreGrouped groups.new (vouches ++ vouch.now ∷ [])) }
{
    let signature = signature_of(vouch);
    let mut list = take_group(alloc, groups, &signature);
    list.push(*vouch)?;
    put_group(groups, signature, list)?;
    Ok(())
}
