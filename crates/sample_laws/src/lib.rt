//! That a sample begins with a legal image, and that its records are accepted until the ledger is full.
#![tactic(auto)]

ghost use Rattle.sample_ledger.specs.Samples as spec;

use account_laws::close_laws::closes::{next_is_closing, taken_is_closable};
use account_laws::close_laws::images::images_represent_states;
use account_laws::closes_keep_accounts;
use legal_rules::first_states::plain_states_are_legal;
use sample_ledger::records_are_written;

/// A ledger closes from the state of the first ledger, and the image represents that state.
pub fn first_states_close()
    ensures { spec.FirstStatesClose }
{
    plain_states_are_legal();
    images_represent_states();
}

/// A ledger closes from each state that the records of a sample give.
pub fn samples_close()
    ensures { spec.SamplesClose }
{
    first_states_close();
    records_are_written();
    taken_is_closable();
    next_is_closing();
    closes_keep_accounts();
}

/// The next record closes its ledger from the state that the records before it give, or is refused there since the
/// files of the ledger would be too long.
pub fn samples_go_on()
    ensures { spec.SamplesGoOn }
{
    first_states_close();
    records_are_written();
    taken_is_closable();
    next_is_closing();
    closes_keep_accounts();
}
