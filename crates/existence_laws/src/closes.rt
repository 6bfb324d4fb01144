//! Laws of closes.

ghost use Rattle.existence_laws.specs.Existence as spec;

use close_laws::closes::taken_is_closable;
use close_laws::entries::next_is_legal;

/// Bytes of a record have an answer at each state from which a ledger closes.
pub fn each_close()
    ensures { spec.EachClose }
{
    taken_is_closable();
    next_is_legal();
}
