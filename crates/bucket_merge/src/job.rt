//! A merge to be made.

ghost use Rattle.std.specs.Prelude.{◌≡◌, ◌+◌, ◌≤◌, IfOk, IfErr, OnOk};
ghost use Rattle.bucket_core.specs.File.{count_of};

use crate::merge::merge;
use crate::out::MergeOut;
use bucket_core::Bucket;
use std::marker::Model;
use std::sync::Arc;
use std::sync::ledger::Ledger;
use steps::Steps;

/// A merge of a level that is to be made: the older input `curr` and the newer one `snap`.
#[derive(Drop)]
pub struct MergeJob {
    level: u32,
    seq: u32,
    curr: Arc<Bucket>,
    snap: Arc<Bucket>,
}

impl Model for MergeJob {
    ghost use Rattle.std.specs.Prelude.{◌≤◌};
    ghost use Rattle.bucket_merge.specs.Job.{Job, job_code};

    ghost Value = { Job };

    ghost coded = { job_code };

    ghost view = { λ j. record {
      level = j.level;
      seq = j.seq;
      curr = j.curr.value;
      snap = j.snap.value;
    } };

    ghost invariant = { λ j. (1 ≤ j.level) × (j.level ≤ 10) };
}

/// A merge that memory was refused to, handed back.
#[derive(Drop)]
pub struct MergeBack {
    /// The merge, as it was.
    pub job: MergeJob,
}

impl MergeJob {
    /// The merge of the older `curr` and the newer `snap` into a level from 1 to 10, begun at ledger `seq`.
    pub fn new(level: u32, seq: u32, curr: Arc<Bucket>, snap: Arc<Bucket>) -> MergeJob
        requires low { 1 ≤ level }
        requires high { level ≤ 10 }
        ensures level { result.level ≡ level }
        ensures seq { result.seq ≡ seq }
        ensures curr { result.curr ≡ curr.value }
        ensures snap { result.snap ≡ snap.value }
    {
        MergeJob {
            level,
            seq,
            curr,
            snap,
        }
    }

    /// The level that the merge is for, 1 to 10.
    pub fn level(&self) -> u32
        ensures level { result ≡ self.now.level }
        ensures low { 1 ≤ result }
        ensures high { result ≤ 10 }
    {
        self.level
    }

    /// The ledger at which the merge began.
    pub fn seq(&self) -> u32
        ensures { result ≡ self.now.seq }
    {
        self.seq
    }

    /// The older input.
    pub fn curr(&self) -> &Arc<Bucket>
        ensures { result.now.value ≡ self.now.curr }
    {
        &self.curr
    }

    /// The newer input.
    pub fn snap(&self) -> &Arc<Bucket>
        ensures { result.now.value ≡ self.now.snap }
    {
        &self.snap
    }

    /// Makes the merge, or hands it back where memory is refused. An item of either input is a step, META too.
    pub fn run<L: Ledger>(self, steps: &mut Steps<L>) -> Result<MergeOut, MergeBack>
        ensures out { IfOk result (λ out. out ≡ self) }
        ensures back { IfErr result (λ back. back.job ≡ self) }
        ensures exact { OnOk result (steps.new ≡ steps.old + count_of self.curr + count_of self.snap) }
        ensures most { steps.new ≤ steps.old + count_of self.curr + count_of self.snap }
    {
        match merge(self.level, &self.curr, &self.snap, steps) {
            Ok(bucket) => Ok(MergeOut::new(self, bucket)),
            Err(_) => Err(MergeBack { job: self }),
        }
    }
}
