//! The levels after a ledger.

ghost use Rattle.std.specs.Prelude.{◌≡◌, ◌≤◌, ◌<◌, ◌+◌, length, map, set, get_or, IfOk, None};
ghost use Rattle.bucket_core.specs.Bucket.{Contents};
ghost use Rattle.bucket_levels.specs.Spills.{level_count};
ghost use Rattle.bucket_levels.specs.Pairs.{pair_at};
ghost use Rattle.bucket_levels.specs.Levels.{pair_of};
ghost use Rattle.bucket_levels.specs.Step.{IsStep};
ghost use Rattle.bucket_levels.specs.Pending.{AreUndrawnAt, AreRenewed};
ghost use Rattle.bucket_levels.specs.Held.{renewed, nothing_pending, AllRenewed};
ghost use Rattle.bucket_levels.specs.Hash.{list_hash};

use crate::hash::hash_of_levels;
use crate::jobs::pending_merges;
use crate::pair::LevelPair;
use crate::pending::PendingMerge;
use crate::plan::LevelStep;
use bucket_core::Bucket;
use bucket_merge::MergeJob;
use ledger_types::Hash;
use std::alloc::AllocError;
use std::marker::Model;
use std::sync::Arc;

/// The eleven levels after a ledger. Which merges are pending follows from their files and the ledger's number: what is
/// kept of them is each job until it is drawn, and each outcome that was handed in.
#[derive(Drop)]
pub struct Levels {
    pub(crate) pairs: Vec<LevelPair>,
    pub(crate) seq: u32,
    pub(crate) pending: Vec<PendingMerge>,
    pub(crate) empty: Arc<Bucket>,
}

impl Model for Levels {
    ghost use Rattle.std.specs.Prelude.{◌≡◌, length, map, None};
    ghost use Rattle.bucket_levels.specs.Spills.{level_count};
    ghost use Rattle.bucket_levels.specs.Levels.{LevelsAt, levels_code, pair_of};
    ghost use Rattle.bucket_levels.specs.Held.{AreHeld, pending_of};

    ghost Value = { LevelsAt };

    ghost coded = { levels_code };

    ghost view = { λ l. record {
      pairs = map pair_of l.pairs.items;
      seq = l.seq;
      pending = map pending_of l.pending.items;
    } };

    ghost invariant = { λ l. (length l.pairs.items ≡ level_count) × (l.empty.value ≡ None)
        × AreHeld (map pair_of l.pairs.items) l.seq l.pending.items };
}

/// Puts the job of a merge that begins in the place of the one before it.
fn renew_level(merges: &mut Vec<PendingMerge>, jobs: &mut Vec<Option<MergeJob>>, level: usize)
    requires merges { level < length merges.old.items }
    requires jobs { level < length jobs.old.items }
    ensures merges { merges.new.items ≡ set merges.old.items level
        (renewed (get_or jobs.old.items level None) (get_or merges.old.items level nothing_pending)) }
    ensures jobs { jobs.new.items ≡ set jobs.old.items level None }
{
    if let Some(job) = jobs[level].take() {
        merges[level] = PendingMerge {
            job: Some(job),
            ready: None,
        };
    }
}

/// Puts the jobs of the merges that begin in the places of those before them.
#[tactic(auto, using(crate::proofs::Renewing::renewals))]
fn renew(merges: &mut Vec<PendingMerge>, jobs: &mut Vec<Option<MergeJob>>)
    requires merges { length merges.old.items ≡ level_count }
    requires jobs { length jobs.old.items ≡ level_count }
    ensures { AllRenewed jobs.old.items merges.old.items merges.new.items }
{
    for level in 0..11usize {
        renew_level(merges, jobs, level);
    }
}

impl Levels {
    /// The levels with these files, from the first one on, after ledger `seq`. The merge that is pending into each
    /// level follows from them; none of them is drawn or ready.
    pub fn restart(pairs: Vec<LevelPair>, seq: u32) -> Result<Levels, AllocError>
        requires { length pairs.items ≡ level_count }
        ensures pairs { IfOk result (λ levels. levels.pairs ≡ map pair_of pairs.items) }
        ensures seq { IfOk result (λ levels. levels.seq ≡ seq) }
        ensures pending { IfOk result (λ levels. AreUndrawnAt levels.pending) }
    {
        let alloc = *pairs.allocator();
        let empty = Bucket::empty(alloc)?;
        let pending = pending_merges(alloc, pairs.as_slice(), seq, &empty)?;
        Ok(Levels {
            pairs,
            seq,
            pending,
            empty,
        })
    }

    /// The files of a level, 0 to 10.
    pub fn pair(&self, level: u32) -> &LevelPair
        requires { level ≤ 10 }
        ensures { pair_of result.now ≡ pair_at self.now.pairs level }
    {
        &self.pairs[level as usize]
    }

    /// The hash of the levels, SHA-256 (FIPS 180-4) of the hashes of all levels, each that of the hashes of its files.
    pub fn hash(&self) -> Hash
        ensures { result ≡ list_hash self.now.pairs }
    {
        hash_of_levels(self.pairs.as_slice())
    }

    /// The levels take a step that was planned from them. It takes no memory.
    pub fn take_step(&mut self, step: LevelStep)
        requires next { step.seq ≡ self.old.seq + 1 }
        requires planned { (fresh : Contents) × IsStep step.seq fresh self.old.pairs step.pairs }
        ensures pairs { self.new.pairs ≡ step.pairs }
        ensures seq { self.new.seq ≡ step.seq }
        ensures pending { AreRenewed step.seq self.old.pending self.new.pending }
    {
        let LevelStep {
            pairs,
            seq,
            mut jobs,
        } = step;
        renew(&mut self.pending, &mut jobs);
        self.pairs = pairs;
        self.seq = seq;
    }
}
