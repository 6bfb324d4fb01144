//! Jobs to post.

use bucket_core::Bucket;
use bucket_merge::MergeJob;
use std::alloc::{AllocError, Global};

/// A merge of nothing with nothing into the first level, begun at ledger `seq`.
pub fn job(alloc: Global, seq: u32) -> Result<MergeJob, AllocError> {
    let curr = Bucket::empty(alloc)?;
    let snap = Bucket::empty(alloc)?;
    Ok(MergeJob::new(1, seq, curr, snap))
}
