//! Laws of entries that are added, removed and moved.

ghost use Rattle.sponsor_laws.specs.Laws.{AddingKeeps, RemovingKeeps, MovingKeeps};

/// Adding an entry keeps each count equal to its sum, and owners and sponsors existing. Nothing is under its key yet;
/// it is the owner's and has no sponsor; its owner and its payer exist, unless they are the account that is added; the
/// owner's open sponsor is another account; an account that is added has nothing. Each list of signers' sponsors has
/// one item a signer, before and afterwards.
pub fn adding_keeps_sums()
    ensures { AddingKeeps }
{}

/// Removing an entry keeps each count equal to its sum, and owners and sponsors existing. An account that is removed
/// has no subentries and sponsors nothing. Each list of signers' sponsors has one item a signer, before and afterwards.
pub fn removing_keeps_sums()
    ensures { RemovingKeeps }
{}

/// Moving an entry to a payer that exists, or to its owner, keeps each count equal to its sum, and owners and sponsors
/// existing. Each list of signers' sponsors has one item a signer, before and afterwards.
pub fn moving_keeps_sums()
    ensures { MovingKeeps }
{}
