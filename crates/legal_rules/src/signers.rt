//! Laws of signers that are added, removed and moved (CAP-0033).

ghost use Rattle.legal_rules.specs.SignerLaws.{SignerAdded, SignerRemoved, SignerMoved, AddingSignersKeep};
ghost use Rattle.legal_rules.specs.SignerLaws.{RemovingSignersKeep, MovingSignersKeep};

/// A signer that is added leaves nothing open.
pub fn signer_added()
    ensures { SignerAdded }
{}

/// A signer that is removed leaves nothing open.
pub fn signer_removed()
    ensures { SignerRemoved }
{}

/// A signer that moves to another payer, or to its account, leaves nothing open.
pub fn signer_moved()
    ensures { SignerMoved }
{}

/// A signer that is added keeps the state legal.
pub fn adding_signers_keep()
    ensures { AddingSignersKeep }
{}

/// A signer that is removed leaves the state legal.
pub fn removing_signers_keep()
    ensures { RemovingSignersKeep }
{}

/// A signer that moves to another payer, or to its account, keeps the state legal.
pub fn moving_signers_keep()
    ensures { MovingSignersKeep }
{}
