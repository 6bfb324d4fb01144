//! The laws of an archive's files, as contracts.

ghost use Rattle.xdr_core.specs.Format.{Lawful, IsPrefixFree, LocatesFaults};
ghost use Rattle.archive_files.specs.Added.{AddedClosesVerify, AddedIsTheirHistory};
ghost use Rattle.archive_files.specs.Encoded.{FilesAreRead};
ghost use Rattle.archive_files.specs.Entries as entry;
ghost use Rattle.archive_files.specs.Form.{stated_history};
ghost use Rattle.archive_files.specs.Facts.{header_fact, set_fact, results_fact};
ghost use Rattle.archive_files.specs.Laws.{ChainsHaveNoFault, VerdictsAreOne};
ghost use Rattle.archive_files.specs.Stating.{PiecesAreStated};

/// What is read is encoded so, what is encoded so is read whatever follows, and writing puts the encoding at the end.
#[tactic(auto, using(crate::proofs::Reread::all_laws))]
pub fn reading_and_encoding_agree()
    ensures headers { Lawful entry.ledger_header_history_entry }
    ensures sets { Lawful entry.transaction_history_entry }
    ensures results { Lawful entry.transaction_history_result_entry }
{}

/// No encoding of an entry is a prefix of another of that kind. A fault of a text that ends too early is at its end,
/// and any other stays whatever bytes follow.
#[tactic(auto, using(crate::proofs::Reread::entry_faults))]
pub fn faults_of_entries_are_located()
    ensures header_prefixes { IsPrefixFree entry.ledger_header_history_entry }
    ensures set_prefixes { IsPrefixFree entry.transaction_history_entry }
    ensures results_prefixes { IsPrefixFree entry.transaction_history_result_entry }
    ensures headers { LocatesFaults entry.ledger_header_history_entry }
    ensures sets { LocatesFaults entry.transaction_history_entry }
    ensures results { LocatesFaults entry.transaction_history_result_entry }
{}

/// What `history` writes is read as it was, and no such text is a prefix of another. A fault of a text that ends too
/// early is at its end, and any other stays whatever bytes follow.
#[tactic(auto, using(crate::proofs::FormLaws::all_laws))]
pub fn the_form_is_lawful()
    ensures lawful { Lawful stated_history }
    ensures prefixes { IsPrefixFree stated_history }
    ensures faults { LocatesFaults stated_history }
{}

/// The file of values is read as just these values.
#[tactic(auto, using(crate::proofs::Reread::all_laws))]
pub fn files_are_read_as_encoded()
    ensures headers { FilesAreRead entry.ledger_header_history_entry header_fact }
    ensures sets { FilesAreRead entry.transaction_history_entry set_fact }
    ensures results { FilesAreRead entry.transaction_history_result_entry results_fact }
{}

/// A chain has no first fault, and a history has one verdict but for want of memory, so that it is verified exactly
/// where it is a chain.
pub fn a_history_has_one_verdict()
    ensures chains { ChainsHaveNoFault }
    ensures verdicts { VerdictsAreOne }
{}

/// The files that closes are added to from the start on are those of the closes.
#[tactic(auto, using(crate::proofs::Closes::added_history))]
pub fn closes_make_their_history()
    ensures { AddedIsTheirHistory }
{}

/// What the closes of a ledger were added to is verified.
#[tactic(auto, using(crate::proofs::Closes::closes_verify))]
pub fn closes_of_a_ledger_verify()
    ensures { AddedClosesVerify }
{}

/// A history in one text is its pieces, one after another.
#[tactic(auto, using(crate::proofs::Stated::pieces_are_stated))]
pub fn pieces_are_stated()
    ensures { PiecesAreStated }
{}
