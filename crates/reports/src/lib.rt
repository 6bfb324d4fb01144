//! What the commands over a ledger in memory write: files of its closes, the verdict on a history, the answer to a
//! query, and the line of each end.
#![tactic(auto)]

mod answering;
mod changes;
mod ends;
mod files;
mod gather;
mod gathering;
mod history;
mod input_end;
pub mod laws;
mod records;
mod verifying;

pub use answering::{answer_query, answers_are_one};
pub use archive_files::StatedHistory;
pub use changes::ChangeRecords;
pub use ends::{report, report_no_memory, report_usage, write_end, write_last, write_refusal};
pub use files::{ClosesFile, write_closes};
pub use gather::{Gather, GatherText};
pub use gathering::{Stop, gather_all};
pub use input_end::end_input;
pub use records::prefix_record;
pub use verifying::verify_history;
