//! The merge that is pending into a level.

use bucket_merge::{MergeJob, MergeOut};

/// What is kept of the merge that is pending into a level, from its start to its commit (FutureBucket in stellar-core).
/// Its start and its inputs follow from the levels' files and number.
#[derive(Drop)]
pub struct PendingMerge {
    // Its job, until it is drawn.
    pub(crate) job: Option<MergeJob>,
    // Its outcome, once it was handed in.
    pub(crate) ready: Option<MergeOut>,
}
