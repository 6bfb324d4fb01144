//! The laws of changes, as contracts.

ghost use Rattle.xdr_core.specs.Format.{Lawful, IsPrefixFree, LocatesFaults};
ghost use Rattle.change_stream.specs.Grammar.{one_change};
ghost use Rattle.change_stream.specs.Laws as spec;

/// What changes made of a ledger's entries, their reverse undoes, the numbers of last changes too.
#[tactic(auto, using(crate::proofs::Undoing::reverse_undoes))]
pub fn reversed_changes_undo()
    ensures { spec.ReverseUndoes }
{}

/// The changes of a close lead from the entries before it to those after it.
#[tactic(auto, using(crate::proofs::Leading::changes_lead))]
pub fn changes_of_a_close_lead_on()
    ensures { spec.ChangesLead }
{}

/// Their reverse leads from the entries after it to those before it, the numbers of last changes too.
#[tactic(auto, using(crate::proofs::Leading::changes_lead_back))]
pub fn reversed_changes_lead_back()
    ensures { spec.ChangesLeadBack }
{}

/// Applying changes has one outcome: it leads to one map, or one change is the first that doesn't fit.
#[tactic(auto, using(crate::proofs::Outcomes::outcome_laws))]
pub fn applying_has_one_outcome()
    ensures maps { spec.AppliesToOne }
    ensures misfits { spec.MisfitsOnce }
    ensures apart { spec.AppliesOrMisfits }
{}

/// What is read is encoded so, what is encoded so is read whatever follows, and writing puts the encoding at the end;
/// no encoding begins another. A fault of a text that ends too early is at its end, and any other stays whatever bytes
/// follow.
#[tactic(auto, using(crate::proofs::GrammarLaws::all_laws))]
pub fn reading_and_encoding_agree()
    ensures lawful { Lawful one_change }
    ensures prefixes { IsPrefixFree one_change }
    ensures faults { LocatesFaults one_change }
{}
