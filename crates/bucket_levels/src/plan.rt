//! The step that a close makes, before the levels take it.

ghost use Rattle.std.specs.Prelude.{◌≡◌, ◌≤◌, ◌+◌, length, map, IfOk};
ghost use Rattle.bucket_core.specs.Bucket.{Contents};
ghost use Rattle.bucket_core.specs.File.{count_of};
ghost use Rattle.bucket_merge.specs.Merge.{IsMerge};
ghost use Rattle.bucket_levels.specs.Step.{snap_after, IsCurrAfter, IsPairAfter, IsStep};
ghost use Rattle.bucket_levels.specs.Work.{work, work_at};
ghost use Rattle.bucket_levels.specs.Levels.{pair_of};
ghost use Rattle.bucket_levels.specs.Hash.{list_hash};
ghost use Rattle.bucket_levels.specs.Size.{file_total as size_of_levels};

use crate::hash::hash_of_levels;
use crate::jobs::begun_jobs;
use crate::levels::Levels;
use crate::pair::LevelPair;
use crate::size::file_total;
use crate::spills::spills;
use bucket_core::Bucket;
use bucket_merge::{MergeJob, merge_fresh};
use ledger_types::Hash;
use std::alloc::AllocError;
use std::marker::Model;
use std::sync::Arc;
use std::sync::ledger::Ledger;
use steps::Steps;

/// The files that levels have after a step, and the number of the ledger that it closes.
#[derive(Drop)]
pub struct LevelStep {
    pub(crate) pairs: Vec<LevelPair>,
    pub(crate) seq: u32,
    // The jobs of the merges that begin with it, level by level.
    pub(crate) jobs: Vec<Option<MergeJob>>,
}

impl Model for LevelStep {
    ghost use Rattle.std.specs.Prelude.{map};
    ghost use Rattle.bucket_levels.specs.Levels.{LevelsAfter, step_code, pair_of};
    ghost use Rattle.bucket_levels.specs.Held.{AreBegun};
    ghost use Rattle.bucket_levels.specs.Spills.{level_count};

    ghost Value = { LevelsAfter };

    ghost coded = { step_code };

    ghost view = { λ s. record { pairs = map pair_of s.pairs.items; seq = s.seq } };

    ghost invariant = { λ s. AreBegun (map pair_of s.pairs.items) s.seq level_count s.jobs.items };
}

impl LevelStep {
    /// The files of each level after the step, from the first level on.
    pub fn pairs(&self) -> &[LevelPair]
        ensures { map pair_of result.now ≡ self.now.pairs }
    {
        self.pairs.as_slice()
    }

    /// The hash of the levels after the step, as `Levels::hash` answers it then.
    pub fn hash(&self) -> Hash
        ensures { result ≡ list_hash self.now.pairs }
    {
        hash_of_levels(self.pairs.as_slice())
    }

    /// How many bytes the files after the step have.
    pub fn file_total(&self) -> u128
        requires { length self.now.pairs ≤ 11 }
        ensures { result ≡ size_of_levels self.now.pairs }
    {
        file_total(self.pairs.as_slice())
    }
}

/// Makes a merge. One that is handed back is an allocation failure.
fn merged<L: Ledger>(job: MergeJob, steps: &mut Steps<L>) -> Result<Arc<Bucket>, AllocError>
    ensures merge { IfOk result (λ bucket. IsMerge job.level job.curr job.snap bucket.value) }
    ensures most { steps.new ≤ steps.old + count_of job.curr + count_of job.snap }
{
    match job.run(steps) {
        Ok(out) => out.bucket().clone(),
        Err(_) => Err(AllocError),
    }
}

impl Levels {
    /// The snap of a level, 0 to 10, after a step.
    fn snap_after(&self, level: u32, seq: u32) -> &Arc<Bucket>
        requires { level ≤ 10 }
        ensures { result.now.value ≡ snap_after seq self.now.pairs level }
    {
        if spills(level, seq) {
            return &self.pair(level).curr;
        }
        &self.pair(level).snap
    }

    /// The curr of level 0 after a step. Where the level spills, the fresh bucket is merged onto nothing, and stays as
    /// it is; else its hash is never asked for.
    #[tactic(auto, using(crate::proofs::Unmerged::spilled_first))]
    fn first_curr<L: Ledger>(
        &self,
        seq: u32,
        fresh: &Arc<Bucket>,
        steps: &mut Steps<L>,
    ) -> Result<Arc<Bucket>, AllocError>
        ensures curr { IfOk result (λ curr. IsCurrAfter seq fresh.now.value self.now.pairs 0 curr.value) }
        ensures most { steps.new ≤ steps.old + work_at seq fresh.now.value self.now 0 }
    {
        if spills(0, seq) {
            return fresh.hashed();
        }
        merge_fresh(&self.pair(0).curr, fresh, steps)
    }

    /// The curr of a level from 1 to 10 after a step, onto which the snap above is merged where the level above spills.
    /// Where the level spills too, that snap is merged onto nothing, and stays as it is. A merge that is ready isn't
    /// made again.
    #[tactic(auto, using(crate::proofs::Working::currs))]
    fn curr_below<L: Ledger>(
        &self,
        level: u32,
        seq: u32,
        steps: &mut Steps<L>,
    ) -> Result<Arc<Bucket>, AllocError>
        requires low { 1 ≤ level }
        requires high { level ≤ 10 }
        requires next { seq ≡ self.now.seq + 1 }
        ensures curr { (fresh : Contents)
            → IfOk result (λ curr. IsCurrAfter seq fresh self.now.pairs level curr.value) }
        ensures most { (fresh : Contents) → steps.new ≤ steps.old + work_at seq fresh self.now level }
    {
        if !spills(level - 1, seq) {
            return self.pair(level).curr.clone();
        }
        let snap = self.pair(level - 1).snap.clone()?;
        let onto_nothing = spills(level, seq);
        if onto_nothing {
            return Ok(snap);
        }
        if let Some(bucket) = self.ready(level) {
            return bucket.clone();
        }
        let curr = self.pair(level).curr.clone()?;
        merged(MergeJob::new(level, seq, curr, snap), steps)
    }

    /// The curr of a level, 0 to 10, after a step.
    fn curr_after<L: Ledger>(
        &self,
        level: u32,
        seq: u32,
        fresh: &Arc<Bucket>,
        steps: &mut Steps<L>,
    ) -> Result<Arc<Bucket>, AllocError>
        requires high { level ≤ 10 }
        requires next { seq ≡ self.now.seq + 1 }
        ensures curr { IfOk result (λ curr. IsCurrAfter seq fresh.now.value self.now.pairs level curr.value) }
        ensures most { steps.new ≤ steps.old + work_at seq fresh.now.value self.now level }
    {
        if level == 0 {
            return self.first_curr(seq, fresh, steps);
        }
        self.curr_below(level, seq, steps)
    }

    /// The files of a level, 0 to 10, after a step.
    fn pair_after<L: Ledger>(
        &self,
        level: u32,
        seq: u32,
        fresh: &Arc<Bucket>,
        steps: &mut Steps<L>,
    ) -> Result<LevelPair, AllocError>
        requires high { level ≤ 10 }
        requires next { seq ≡ self.now.seq + 1 }
        ensures pair { IfOk result (λ pair. IsPairAfter seq fresh.now.value self.now.pairs level (pair_of pair)) }
        ensures most { steps.new ≤ steps.old + work_at seq fresh.now.value self.now level }
    {
        let curr = self.curr_after(level, seq, fresh, steps)?;
        let snap = self.snap_after(level, seq).clone()?;
        Ok(LevelPair { curr, snap })
    }

    /// The step of ledger `seq`, the one after the levels' own, with the bucket of what it changed. It raises the steps
    /// by at most the items of the files that it merges, which are none where the outcome is ready. The levels stay as
    /// they are.
    pub fn plan_batch<L: Ledger>(
        &self,
        seq: u32,
        fresh: Arc<Bucket>,
        steps: &mut Steps<L>,
    ) -> Result<LevelStep, AllocError>
        requires { seq ≡ self.now.seq + 1 }
        ensures seq { IfOk result (λ step. step.seq ≡ seq) }
        ensures step { IfOk result (λ step. IsStep seq fresh.value self.now.pairs step.pairs) }
        ensures most { steps.new ≤ steps.old + work seq fresh.value self.now }
    {
        let alloc = self.empty.allocator();
        let mut pairs = Vec::with_capacity(alloc, 11)?;
        for level in 0..11u32 {
            pairs.push(self.pair_after(level, seq, &fresh, steps)?)?;
        }
        let jobs = begun_jobs(alloc, pairs.as_slice(), seq, &self.empty)?;
        Ok(LevelStep { pairs, seq, jobs })
    }
}
