//! Laws of a record that closes a ledger, for whoever relies on what was closed.

ghost use Rattle.close_laws.specs.ClosedRecords as spec;

use crate::closes::{next_is_closing, taken_is_closable};
use close_rules::op_laws::steps::{legal_settles, settled_legal, transaction_laws};
use close_rules::tx_apply::{each_conserves, operations_keep_reserves, sets_conserve};

/// A record that closes a ledger makes and loses no lumens, neither by one of its transactions nor by all. The supply
/// of each other asset changes by what is issued and redeemed, each holder has what it had and what the moves give it,
/// each operation keeps reserves, and each transaction and the close leave a legal state.
pub fn records_keep_laws()
    ensures { spec.RecordsKeepLaws }
{
    transaction_laws();
    legal_settles();
    settled_legal();
    sets_conserve();
    each_conserves();
    operations_keep_reserves();
}

/// The same of bytes that close a ledger from a closing state, no more than a record may have, and the next ledger
/// closes from what they leave.
pub fn closes_are_lawful()
    ensures { spec.ClosesAreLawful }
{
    records_keep_laws();
    taken_is_closable();
    next_is_closing();
}
