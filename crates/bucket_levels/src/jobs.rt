//! The jobs of merges that begin.

ghost use Rattle.std.specs.Prelude.{◌≡◌, ◌≤◌, length, map, set, get_or, IfOk, None};
ghost use Rattle.bucket_levels.specs.Spills.{level_count};
ghost use Rattle.bucket_levels.specs.Step.{base_at};
ghost use Rattle.bucket_levels.specs.Levels.{pair_of};
ghost use Rattle.bucket_levels.specs.Pending.{commit_of, IsPending};
ghost use Rattle.bucket_levels.specs.Held as spec;

use crate::pair::LevelPair;
use crate::pending::PendingMerge;
use crate::spills::{renews, spills_at_commit, start_of};
use bucket_core::Bucket;
use bucket_merge::MergeJob;
use std::alloc::{AllocError, Global};
use std::sync::Arc;

/// What the merge that is pending into a level, 1 to 10, goes into: the level's curr, or nothing where the level spills
/// as it is committed.
pub(crate) fn older_input<'a>(
    pairs: &'a [LevelPair],
    seq: u32,
    level: u32,
    empty: &'a Arc<Bucket>,
) -> &'a Arc<Bucket>
    requires pairs { length pairs.now ≡ level_count }
    requires low { 1 ≤ level }
    requires high { level ≤ 10 }
    requires empty { empty.now.value ≡ None }
    ensures { result.now.value ≡ base_at (commit_of level seq) (map pair_of pairs.now) level }
{
    if spills_at_commit(level, seq) {
        return empty;
    }
    &pairs[level as usize].curr
}

/// The job of the merge that is pending into a level, 1 to 10.
fn pending_job(
    pairs: &[LevelPair],
    seq: u32,
    level: u32,
    empty: &Arc<Bucket>,
) -> Result<MergeJob, AllocError>
    requires pairs { length pairs.now ≡ level_count }
    requires low { 1 ≤ level }
    requires high { level ≤ 10 }
    requires empty { empty.now.value ≡ None }
    ensures { IfOk result (IsPending (map pair_of pairs.now) seq level) }
{
    let curr = older_input(pairs, seq, level, empty).clone()?;
    let snap = pairs[level as usize - 1].snap.clone()?;
    Ok(MergeJob::new(level, start_of(level, seq), curr, snap))
}

/// The job of a level, 0 to 10, whose merge begins with the step that leaves these files.
fn begun_job(
    pairs: &[LevelPair],
    seq: u32,
    level: u32,
    empty: &Arc<Bucket>,
) -> Result<Option<MergeJob>, AllocError>
    requires pairs { length pairs.now ≡ level_count }
    requires high { level ≤ 10 }
    requires empty { empty.now.value ≡ None }
    ensures { IfOk result (spec.IsBegun (map pair_of pairs.now) seq level) }
{
    if !renews(level, seq) {
        return Ok(None);
    }
    Ok(Some(pending_job(pairs, seq, level, empty)?))
}

/// The jobs of the merges that begin with the step that leaves these files, level by level.
pub(crate) fn begun_jobs(
    alloc: Global,
    pairs: &[LevelPair],
    seq: u32,
    empty: &Arc<Bucket>,
) -> Result<Vec<Option<MergeJob>>, AllocError>
    requires pairs { length pairs.now ≡ level_count }
    requires empty { empty.now.value ≡ None }
    ensures { IfOk result (λ jobs. spec.AreBegun (map pair_of pairs.now) seq level_count jobs.items) }
{
    let mut jobs = Vec::with_capacity(alloc, 11)?;
    for level in 0..11u32 {
        jobs.push(begun_job(pairs, seq, level, empty)?)?;
    }
    Ok(jobs)
}

/// What is kept of the merge into a level, 0 to 10, that no job was drawn of.
fn pending_merge(
    pairs: &[LevelPair],
    seq: u32,
    level: u32,
    empty: &Arc<Bucket>,
) -> Result<PendingMerge, AllocError>
    requires pairs { length pairs.now ≡ level_count }
    requires high { level ≤ 10 }
    requires empty { empty.now.value ≡ None }
    ensures { IfOk result (spec.IsUndrawn (map pair_of pairs.now) seq level) }
{
    let job = if level == 0 {
        None
    } else {
        Some(pending_job(pairs, seq, level, empty)?)
    };
    Ok(PendingMerge { job, ready: None })
}

/// All merges that are pending into levels with these files, none of them drawn.
pub(crate) fn pending_merges(
    alloc: Global,
    pairs: &[LevelPair],
    seq: u32,
    empty: &Arc<Bucket>,
) -> Result<Vec<PendingMerge>, AllocError>
    requires pairs { length pairs.now ≡ level_count }
    requires empty { empty.now.value ≡ None }
    ensures { IfOk result (λ merges. spec.AreUndrawn (map pair_of pairs.now) seq level_count merges.items) }
{
    let mut merges = Vec::with_capacity(alloc, 11)?;
    for level in 0..11u32 {
        merges.push(pending_merge(pairs, seq, level, empty)?)?;
    }
    Ok(merges)
}
