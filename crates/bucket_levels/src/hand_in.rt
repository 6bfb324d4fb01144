//! Merges that come from elsewhere.

ghost use Rattle.std.specs.Prelude.{◌≡◌, ◌≤◌, ◌<◌, ◌↔◌, false, length, set, get_or, Option, IfErr, IfSome, IfNone};
ghost use Rattle.std.specs.Prelude.{OnOk, None, Some};
ghost use Rattle.std.specs.Prelude.{MatchOption};
ghost use Rattle.bucket_core.specs.File.{file_of};
ghost use Rattle.bucket_levels.specs.HandIn as spec;
ghost use Rattle.bucket_levels.specs.Held.{nothing_pending, IsReadyFor, IsFirstWaiting, NoneWaitsAbove};
ghost use Rattle.bucket_levels.specs.Pending.{pending_at, IsPending};

use crate::jobs::older_input;
use crate::levels::Levels;
use crate::pending::PendingMerge;
use crate::spills::start_of;
use bucket_core::Bucket;
use bucket_core::laws::a_file_is_of_one_bucket;
use bucket_merge::{MergeJob, MergeOut};
use std::sync::Arc;

/// Why an outcome isn't that of the merge that is pending into its level.
#[derive(Clone, Copy, Debug, PartialEq, Eq)]
pub enum HandInFault {
    /// It began at another ledger than the pending one did.
    StaleMerge {
        /// The level that it is for.
        level: u32,
        /// When it began.
        given: u32,
        /// When the pending one began.
        due: u32,
    },
    /// An input has another file. The older input is compared first.
    WrongInputs {
        /// The level that it is for.
        level: u32,
        /// Whether it is the newer input.
        snap: bool,
        /// The first byte at which the files differ, or the length of the shorter one.
        at: u64,
    },
}

/// An outcome that wasn't taken in, handed back.
#[derive(Drop)]
pub struct HandInBack {
    /// Why.
    pub fault: HandInFault,
    /// The outcome, as it was.
    pub out: MergeOut,
}

/// The first offset at which two texts differ, which is the length of the shorter one where the other goes on.
#[tactic(auto, using(crate::proofs::Differing::differences))]
fn difference(a: &[u8], b: &[u8]) -> Option<u64>
    ensures differ { IfSome result (λ at. spec.DifferAt at a.now b.now) }
    ensures same { IfNone result (a.now ≡ b.now) }
{
    let both = a.len().min(b.len());
    for at in 0..both {
        if a[at] != b[at] {
            return Some(at as u64);
        }
    }
    if a.len() == b.len() {
        return None;
    }
    Some(both as u64)
}

/// The first offset at which the files of two buckets differ.
fn file_difference(a: &Bucket, b: &Bucket) -> Option<u64>
    ensures differ { IfSome result (λ at. spec.DifferAt at (file_of a.now) (file_of b.now)) }
    ensures same { IfNone result (a.now ≡ b.now) }
{
    a_file_is_of_one_bucket();
    a.cursor();
    b.cursor();
    difference(a.bytes(), b.bytes())
}

/// The first level whose job waits to be drawn.
fn first_waiting(merges: &[PendingMerge]) -> Option<usize>
    ensures found { IfSome result (λ level. IsFirstWaiting merges.now level) }
    ensures none { IfNone result (NoneWaitsAbove merges.now (length merges.now)) }
{
    for level in 0..merges.len() {
        if merges[level].job.is_some() {
            return Some(level);
        }
    }
    None
}

/// Takes the job of a level out.
fn take_job(merges: &mut Vec<PendingMerge>, level: usize) -> Option<MergeJob>
    requires { level < length merges.old.items }
    ensures job { result ≡ (get_or merges.old.items level nothing_pending).job }
    ensures left { merges.new.items
        ≡ set merges.old.items level (record (get_or merges.old.items level nothing_pending) { job = None }) }
{
    merges[level].job.take()
}

/// Puts the outcome of a level in.
fn put_ready(merges: &mut Vec<PendingMerge>, level: usize, out: MergeOut)
    requires { level < length merges.old.items }
    ensures { merges.new.items
        ≡ set merges.old.items level (record (get_or merges.old.items level nothing_pending) { ready = Some out }) }
{
    merges[level].ready = Some(out);
}

impl Levels {
    /// The outcome that is ready of the merge that is pending into a level, 0 to 10.
    pub(crate) fn ready(&self, level: u32) -> Option<&Arc<Bucket>>
        requires { level ≤ 10 }
        ensures { MatchOption result ((pending_at self.now.pending level).ready ≡ false)
            (λ bucket. IsReadyFor self.now level bucket.now.value) }
    {
        match &self.pending[level as usize].ready {
            Some(out) => Some(out.bucket()),
            None => None,
        }
    }

    /// Draws the job of a pending merge, of the first level whose job wasn't drawn. `None` exactly where each was. It
    /// takes no memory.
    pub fn next_job(&mut self) -> Option<MergeJob>
        ensures none { IfNone result (spec.NoneWaits self.old) }
        ensures kept { IfNone result (self.new ≡ self.old) }
        ensures drawn { IfSome result (λ job. spec.Draws self.old job self.new) }
    {
        match first_waiting(self.pending.as_slice()) {
            Some(level) => take_job(&mut self.pending, level),
            None => None,
        }
    }

    /// Why an outcome isn't that of the merge that is pending into its level.
    fn refusal(&self, out: &MergeOut) -> Option<HandInFault>
        ensures refused { IfSome result (spec.IsRefusedFor self.now out.now) }
        ensures due { IfNone result (IsPending self.now.pairs self.now.seq out.now.level out.now) }
    {
        let level = out.level();
        let due = start_of(level, self.seq);
        if out.seq() != due {
            let given = out.seq();
            return Some(HandInFault::StaleMerge { level, given, due });
        }
        let older = older_input(self.pairs.as_slice(), self.seq, level, &self.empty);
        if let Some(at) = file_difference(older, out.curr()) {
            let snap = false;
            return Some(HandInFault::WrongInputs { level, snap, at });
        }
        let newer = &self.pair(level - 1).snap;
        if let Some(at) = file_difference(newer, out.snap()) {
            let snap = true;
            return Some(HandInFault::WrongInputs { level, snap, at });
        }
        None
    }

    /// Takes in a merge that was made: it is ready where it began when the pending merge into its level did, and where
    /// its inputs have the same files, byte for byte. Else it comes back, and nothing changes. It takes no memory.
    pub fn hand_in(&mut self, out: MergeOut) -> Result<(), HandInBack>
        ensures taken { OnOk result (spec.TakesIn self.old out self.new) }
        ensures back { IfErr result (λ back. back.out ≡ out) }
        ensures kept { IfErr result (λ _. self.new ≡ self.old) }
        ensures refused { IfErr result (λ back. spec.IsRefusedFor self.old out back.fault) }
    {
        if let Some(fault) = self.refusal(&out) {
            return Err(HandInBack { fault, out });
        }
        put_ready(&mut self.pending, out.level() as usize, out);
        Ok(())
    }
}
