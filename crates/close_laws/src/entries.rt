//! Laws of the entries after a close.

ghost use Rattle.close_laws.specs.Legal as legal;

use close_rules::op_laws::steps::{legal_settles, settled_legal, transaction_laws};
use close_rules::tx_apply::sets_conserve;

/// A close leaves a legal state.
pub fn next_is_legal()
    ensures { legal.NextIsLegal }
{
    settled_legal();
    sets_conserve();
}

/// What a close leaves can be written.
pub fn entries_stay_encodable()
    ensures { legal.EntriesStayEncodable }
{
    transaction_laws();
    legal_settles();
    settled_legal();
    sets_conserve();
}

/// What the entries of a state hold can be summed up, by the crate `tally`.
pub fn states_have_entire_ids()
    ensures { legal.StatesHaveEntireIds }
{}

/// What the entries hold that the set of a record leaves can be summed up, by the crate `tally`.
pub fn sets_leave_entire_ids()
    ensures { legal.SetsLeaveEntireIds }
{
    transaction_laws();
    legal_settles();
    sets_conserve();
}
