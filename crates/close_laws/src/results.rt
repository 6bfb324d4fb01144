//! Laws of the results of a close.

ghost use Rattle.close_laws.specs.Results as spec;

use close_rules::op_laws::steps::{legal_settles, transaction_laws};

/// The results of a set can be written.
pub fn results_are_encoded()
    ensures { spec.ResultsAreEncoded }
{
    transaction_laws();
    legal_settles();
}
