//! A job on the board.

use bucket_merge::MergeJob;

/// A job that was posted, with the number that the board gave to it: 1 to the first one, and so on.
#[derive(Drop)]
pub struct PostedJob {
    pub(crate) number: u64,
    pub(crate) job: MergeJob,
}
