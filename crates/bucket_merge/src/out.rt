//! A merge that was made.

ghost use Rattle.std.specs.Prelude.{◌≡◌, ◌≤◌};
ghost use Rattle.bucket_merge.specs.Merge.{IsMerge};

use crate::job::MergeJob;
use bucket_core::Bucket;
use std::marker::Model;
use std::sync::Arc;

/// A merge that was made, with its job. Its bucket is the merge of the job's own inputs.
#[derive(Drop)]
pub struct MergeOut {
    job: MergeJob,
    bucket: Arc<Bucket>,
}

impl Model for MergeOut {
    ghost use Rattle.bucket_merge.specs.Job.{Job, job_code};
    ghost use Rattle.bucket_merge.specs.Merge.{IsMerge};

    ghost Value = { Job };

    ghost coded = { job_code };

    ghost view = { λ o. o.job };

    ghost invariant = { λ o. IsMerge o.job.level o.job.curr o.job.snap o.bucket.value };
}

impl MergeOut {
    pub(crate) fn new(job: MergeJob, bucket: Arc<Bucket>) -> MergeOut
        requires { IsMerge job.level job.curr job.snap bucket.value }
        ensures { result ≡ job }
    {
        MergeOut { job, bucket }
    }

    /// The level that the merge is for, 1 to 10.
    pub fn level(&self) -> u32
        ensures level { result ≡ self.now.level }
        ensures low { 1 ≤ result }
        ensures high { result ≤ 10 }
    {
        self.job.level()
    }

    /// The ledger at which the merge began.
    pub fn seq(&self) -> u32
        ensures { result ≡ self.now.seq }
    {
        self.job.seq()
    }

    /// The older input.
    pub fn curr(&self) -> &Arc<Bucket>
        ensures { result.now.value ≡ self.now.curr }
    {
        self.job.curr()
    }

    /// The newer input.
    pub fn snap(&self) -> &Arc<Bucket>
        ensures { result.now.value ≡ self.now.snap }
    {
        self.job.snap()
    }

    /// The merge of the two.
    pub fn bucket(&self) -> &Arc<Bucket>
        ensures { IsMerge self.now.level self.now.curr self.now.snap result.now.value }
    {
        &self.bucket
    }
}
