//! Laws of the header after a close.

ghost use Rattle.close_laws.specs.Header as spec;

use close_rules::op_laws::steps::settled_held;
use close_rules::tx_apply::sets_conserve;

/// The header after a close can be written.
pub fn next_header_is_encoded()
    ensures { spec.NextHeaderIsEncoded }
{
    settled_held();
    sets_conserve();
}
