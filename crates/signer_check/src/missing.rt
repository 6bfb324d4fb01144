//! The weight that a check is still missing.

ghost use Rattle.std.specs.Prelude.{◌≡◌};
ghost use Rattle.signer_check.specs.Weight.{weight_of, counted_by_hash};
ghost use Rattle.signer_check.specs.Progress.{missing_with as missing_after_one, missing_after};

use crate::matching::is_authorised;
use ledger_types::{Hash, Signer};

/// What is missing once a signer counts, or `None` where it weighs enough.
pub fn missing_with(needed: u32, signer: &Signer) -> Option<u32>
    ensures { result ≡ missing_after_one needed (weight_of signer.now) }
{
    let weight = signer.weight.min(255);
    if needed <= weight {
        None
    } else {
        Some(needed - weight)
    }
}

/// What is missing once the pre-authorised signers count, or `None` where they weigh enough.
pub fn missing_after_hash(hash: &Hash, signers: &[Signer], needed: u32) -> Option<u32>
    ensures { result ≡ missing_after needed (counted_by_hash hash.now signers.now) }
{
    let mut missing = needed;
    for signer in signers {
        if is_authorised(hash, &signer.key) {
            missing = missing_with(missing, signer)?;
        }
    }
    Some(missing)
}
