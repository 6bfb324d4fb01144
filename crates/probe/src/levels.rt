//! Levels that take closes.

ghost use Rattle.std.specs.Prelude.{◌≡◌, ◌+◌, ◌<◌, ◌≤◌, ◌^◌, length, IfSome};

use bucket_core::Bucket;
use bucket_levels::{HandInBack, LevelPair, Levels};
use bucket_merge::{MergeJob, MergeOut};
use ledger_types::Hash;
use outside::Steps;
use std::alloc::Global;
use std::marker::Brand;
use std::sync::Arc;
use std::sync::ledger::{Blank, Ledger};
use xdr_core::Cursor;

/// The bucket of a file, if it is one.
fn bucket_of(alloc: Global, file: &[u8]) -> Option<Arc<Bucket>> {
    Bucket::read(file.to_vec(alloc).ok()?).ok()
}

/// Reads a bucket's file.
pub fn read_bucket(alloc: Global, input: &mut Cursor<'_>) -> Option<Arc<Bucket>> {
    bucket_of(alloc, input.var(u32::MAX).ok()?)
}

/// Reads the files of a level.
fn read_pair(alloc: Global, input: &mut Cursor<'_>) -> Option<LevelPair> {
    let curr = read_bucket(alloc, input)?;
    let snap = read_bucket(alloc, input)?;
    Some(LevelPair { curr, snap })
}

/// Reads the files of eleven levels.
pub fn read_pairs(alloc: Global, input: &mut Cursor<'_>) -> Option<Vec<LevelPair>>
    ensures { IfSome result (λ pairs. length pairs.items ≡ 11) }
{
    let mut pairs = Vec::new(alloc);
    for _level in 0..11usize {
        pairs.push(read_pair(alloc, input)?).ok()?;
    }
    Some(pairs)
}

/// The files of a level once more.
fn copied(pair: &LevelPair) -> Option<LevelPair> {
    let curr = pair.curr.clone().ok()?;
    let snap = pair.snap.clone().ok()?;
    Some(LevelPair { curr, snap })
}

/// Levels with the number of the last ledger that they took.
#[derive(Drop)]
pub struct Closing {
    levels: Levels,
    seq: u32,
    ghost at: { levels.seq ≡ seq },
}

impl Closing {
    /// Levels of some files, after a ledger.
    pub fn of_pairs(pairs: Vec<LevelPair>, seq: u32) -> Option<Closing>
        requires { length pairs.items ≡ 11 }
    {
        let levels = Levels::restart(pairs, seq).ok()?;
        Some(Closing { levels, seq })
    }

    /// Levels that are made anew of the same files, after a ledger of this number.
    pub fn renumbered(&self, alloc: Global, seq: u32) -> Option<Closing> {
        let mut pairs = Vec::new(alloc);
        for level in 0..11u32 {
            pairs.push(copied(self.levels.pair(level))?).ok()?;
        }
        Closing::of_pairs(pairs, seq)
    }

    /// Levels that are made anew of the same files.
    pub fn restarted(&self, alloc: Global) -> Option<Closing> {
        self.renumbered(alloc, self.seq)
    }

    /// Takes the close of the next ledger, which changed what a fresh bucket says, if there is such a ledger.
    pub fn close(&mut self, fresh: Arc<Bucket>) -> Option<()> {
        close_in::<Brand>(self, fresh, Blank::new(1))
    }

    /// The files of a level.
    pub fn pair(&self, level: u32) -> &LevelPair
        requires { level ≤ 10 }
    {
        self.levels.pair(level)
    }

    /// Draws the job of the next merge that waits.
    pub fn next_job(&mut self) -> Option<MergeJob> {
        self.levels.next_job()
    }

    /// Hands a merge in.
    pub fn hand_in(&mut self, out: MergeOut) -> Result<(), HandInBack> {
        self.levels.hand_in(out)
    }

    /// The hash of the levels.
    pub fn hash(&self) -> Hash {
        self.levels.hash()
    }
}

/// Takes the close of the next ledger, and counts its steps in a ledger of their own.
fn close_in<L: Ledger>(closing: &mut Closing, fresh: Arc<Bucket>, blank: Blank) -> Option<()>
    requires name { blank.name ≡ L.name }
    requires parts { blank.parts ≡ L.parts }
    requires some { 0 < L.parts }
{
    let mut steps: Steps<L> = Steps::new(blank);
    let seq = closing.seq.checked_add(1)?;
    let step = closing.levels.plan_batch(seq, fresh, &mut steps).ok()?;
    closing.levels.take_step(step);
    closing.seq = seq;
    Some(())
}

/// Makes a merge, and counts its steps in a ledger of their own.
fn made_in<L: Ledger>(job: MergeJob, blank: Blank) -> Option<MergeOut>
    requires name { blank.name ≡ L.name }
    requires parts { blank.parts ≡ L.parts }
    requires some { 0 < L.parts }
{
    let mut steps: Steps<L> = Steps::new(blank);
    job.run(&mut steps).ok()
}

/// Makes a merge.
pub fn made(job: MergeJob) -> Option<MergeOut> {
    made_in::<Brand>(job, Blank::new(1))
}
