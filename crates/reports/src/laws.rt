//! Laws of what the commands over a ledger in memory write, as contracts.

ghost use Rattle.reports.specs.Changing.{ChangesOfClosesLead};
ghost use Rattle.reports.specs.Verifiable.{HistoriesVerify};

use archive_files::laws::{closes_of_a_ledger_verify, the_form_is_lawful};
use change_stream::laws::{changes_of_a_close_lead_on, reversed_changes_lead_back};
use ledger_close::close_laws::closes::{next_is_closing, taken_is_closable};
use ledger_close::close_laws::results::results_are_encoded;

/// `verify` accepts what `history` writes of the closes of records after a ledger, with their number and the hash of
/// the last header.
#[tactic(auto, using(crate::proofs::Verifiable::histories_verify))]
pub fn histories_verify()
    ensures { HistoriesVerify }
{
    taken_is_closable();
    next_is_closing();
    results_are_encoded();
    closes_of_a_ledger_verify();
    the_form_is_lawful();
}

/// The changes that `changes` writes of a close lead from the entries before it to those after it, and reversed they
/// lead back, the numbers of last changes too.
pub fn changes_of_closes_lead()
    ensures { ChangesOfClosesLead }
{
    taken_is_closable();
    next_is_closing();
    changes_of_a_close_lead_on();
    reversed_changes_lead_back();
}
