//! Laws of signers that are added, removed and moved. Each list of signers' sponsors has one item a signer, before and
//! afterwards.

ghost use Rattle.sponsor_laws.specs.Laws.{AddingSignerKeeps, RemovingSignerKeeps, MovingSignerKeeps};

/// Adding a signer to an account that exists keeps each count equal to its sum, and owners and sponsors existing. The
/// payer exists, and the account's open sponsor is another account. Whether a signer with that key is there, or 20 are,
/// is not looked at.
pub fn adding_signers_keeps_sums()
    ensures { AddingSignerKeeps }
{}

/// Removing a signer keeps each count equal to its sum, and owners and sponsors existing.
pub fn removing_signers_keeps_sums()
    ensures { RemovingSignerKeeps }
{}

/// Moving a signer to a payer that exists, or to its account, keeps each count equal to its sum, and owners and
/// sponsors existing.
pub fn moving_signers_keeps_sums()
    ensures { MovingSignerKeeps }
{}
