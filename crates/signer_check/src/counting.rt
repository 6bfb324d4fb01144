//! Which signers have counted, so that each counts once.

ghost use Rattle.std.specs.Prelude.{◌≡◌, ◌&&◌, not, option_copied, position};
ghost use Rattle.std.specs.List.{zip};
ghost use Rattle.std.specs.Option.{option_map};
ghost use Rattle.signer_check.specs.Weight.{matches_key as key_matches, first_match};
ghost use Rattle.signer_check.specs.Progress.{left_of, left_after};

use crate::held::HeldSignature;
use crate::kind::SignerKind;
use crate::matching::matches_key;
use ledger_types::Signer;

/// The most signers that a check may count: those in the list of an account, and its own key.
pub const MAX_COUNTED: usize = ledger_types::MAX_SIGNERS as usize + 1;

/// The index of the first signer of a kind that has not counted and that the signature matches.
fn first_index(
    kind: SignerKind,
    counted: &[bool; MAX_COUNTED],
    signers: &[Signer],
    signature: &HeldSignature,
) -> Option<usize>
    ensures { result ≡
        position (λ pair. not pair.1 && key_matches kind signature.now pair.0.key) (zip signers.now counted.now) }
{
    signers.iter().zip(counted).position(|(signer, has_counted)| !*has_counted
        && matches_key(kind, signature, &signer.key))
}

/// Counts the first signer of a kind that has not counted and that the signature matches, if there is one.
pub fn count_signer<'a>(
    kind: SignerKind,
    counted: &mut [bool; MAX_COUNTED],
    signers: &'a [Signer],
    signature: &HeldSignature,
) -> Option<&'a Signer>
    ensures signer { option_copied result ≡
        option_map (λ found. found.signer) (first_match kind signature.now (left_of counted.old signers.now)) }
    ensures others { left_of counted.new signers.now ≡
        left_after (left_of counted.old signers.now)
        (first_match kind signature.now (left_of counted.old signers.now)) }
{
    let index = first_index(kind, counted, signers, signature)?;
    counted[index] = true;
    Some(&signers[index])
}
