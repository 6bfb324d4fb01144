//! One merge of two buckets (CAP-0020), as a value that says what goes into it, and its outcome, whose type keeps that
//! it is the merge of its own inputs.
#![tactic(auto)]

mod job;
mod joining;
pub mod laws;
mod merge;
mod out;
mod record;
mod side;
mod take;
mod write;

pub use job::{MergeBack, MergeJob};
pub use merge::merge_fresh;
pub use out::MergeOut;
