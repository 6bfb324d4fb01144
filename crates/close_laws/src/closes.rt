//! Laws of complete closes.

ghost use Rattle.close_laws.specs.Closes as spec;

use bucket_levels::steps_represent;
use close_rules::op_laws::steps::{legal_settles, settled_legal, transaction_laws};
use close_rules::tx_apply::sets_conserve;

/// Bytes that are taken, no more than a record may have, are a record that closes a ledger.
pub fn taken_is_closable()
    ensures { spec.TakenIsClosable }
{}

/// The next ledger closes from what a close leaves.
pub fn next_is_closing()
    ensures { spec.NextIsClosing }
{
    transaction_laws();
    legal_settles();
    settled_legal();
    sets_conserve();
    steps_represent();
}

/// A close has one answer.
pub fn closes_are_one()
    ensures { spec.ClosesAreOne }
{}
