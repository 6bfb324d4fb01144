//! Cases of levels that take closes while merges are handed in, from levels of empty files on. Merges are kept in a row
//! until they are handed in.
//!
//!     levels SEQ FILES                  levels after a ledger, by the curr and the snap of each
//!     close FILE                        the next ledger, by what it changed
//!     draw                              keeps each merge that began; writes their levels and starts
//!     make LEVEL START OLDER NEWER      keeps a merge; writes its file
//!     again INDEX LATER MORE MORE       keeps the merge at an index in the row in another form: with a later start,
//!                                       and with more at the end of its older and of its newer input
//!     hand_in INDEX                     the merge at an index in the row; writes why it comes back, if it does
//!     others NEW SEQ                    hands in all merges of levels after a ledger that have the files of earlier
//!                                       levels: where NEW is 1, of these, which are the earlier ones from now on
//!
//! The first two write the hash of the levels, and how long each file is.

use crate::levels::{Closing, made, read_bucket, read_pairs};
use crate::machine::{Machine, take_all};
use crate::output::Output;
use bucket_core::Bucket;
use bucket_levels::{HandInBack, HandInFault, LevelPair};
use bucket_merge::{MergeJob, MergeOut};
use std::alloc::Global;
use std::sync::Arc;
use xdr_core::Cursor;

/// Levels, the files of earlier ones, and the merges that are kept.
#[derive(Drop)]
pub struct Board {
    closing: Closing,
    earlier: Closing,
    kept: Vec<MergeOut>,
}

/// Writes why a merge comes back: its level, and its start and the one that is due, or which input differs and where.
fn write_fault(output: &mut Output, fault: HandInFault) {
    match fault {
        HandInFault::StaleMerge { level, given, due } => {
            output.word("stale");
            output.number(level as i128);
            output.number(given as i128);
            output.number(due as i128);
        }
        HandInFault::WrongInputs { level, snap, at } => {
            output.word(if snap { "newer" } else { "older" });
            output.number(level as i128);
            output.number(at as i128);
        }
    }
}

/// Writes a merge that came back: its level, its start, and how long its inputs are.
fn write_back(output: &mut Output, back: &HandInBack) {
    write_fault(output, back.fault);
    output.number(back.out.level() as i128);
    output.number(back.out.seq() as i128);
    output.number(back.out.curr().bytes().len() as i128);
    output.number(back.out.snap().bytes().len() as i128);
}

/// Hands a merge in, and writes what becomes of it.
fn hand_in(closing: &mut Closing, out: MergeOut, output: &mut Output) {
    match closing.hand_in(out) {
        Ok(()) => output.word("taken"),
        Err(back) => write_back(output, &back),
    }
}

/// A bucket with more at the end of its file.
fn longer(alloc: Global, bucket: &Bucket, more: &[u8]) -> Option<Arc<Bucket>> {
    let mut file = bucket.bytes().to_vec(alloc).ok()?;
    file.extend_from_slice(more).ok()?;
    Bucket::read(file).ok()
}

/// A job over the inputs of a merge, with more at the end of each and a later start.
fn changed_job(alloc: Global, out: &MergeOut, input: &mut Cursor<'_>) -> Option<MergeJob> {
    let start = out.seq().checked_add(input.u32().ok()?)?;
    let curr = longer(alloc, out.curr(), input.var(u32::MAX).ok()?)?;
    let snap = longer(alloc, out.snap(), input.var(u32::MAX).ok()?)?;
    Some(MergeJob::new(out.level(), start, curr, snap))
}

/// Reads the job of a merge, if its level has merges.
fn read_job(alloc: Global, input: &mut Cursor<'_>) -> Option<MergeJob> {
    let (level, start) = (input.u32().ok()?, input.u32().ok()?);
    if level == 0 || level > 10 {
        return None;
    }
    let older = read_bucket(alloc, input)?;
    let newer = read_bucket(alloc, input)?;
    Some(MergeJob::new(level, start, older, newer))
}

/// Writes how long the files of a level are.
fn write_lengths(output: &mut Output, pair: &LevelPair) {
    output.number(pair.curr.bytes().len() as i128);
    output.number(pair.snap.bytes().len() as i128);
}

impl Board {
    /// Levels of empty files.
    pub fn new(alloc: Global) -> Option<Board> {
        let none = [0u8; 88];
        let pairs = read_pairs(alloc, &mut Cursor::new(&none))?;
        let closing = Closing::of_pairs(pairs, 0)?;
        let earlier = closing.restarted(alloc)?;
        Some(Board {
            closing,
            earlier,
            kept: Vec::new(alloc),
        })
    }

    /// Writes the hash of the levels, and how long their files are.
    fn write_state(&self, output: &mut Output) -> Option<()> {
        output.bytes(&self.closing.hash().0);
        for level in 0..11u32 {
            write_lengths(output, self.closing.pair(level));
        }
        Some(())
    }

    fn set_levels(
        &mut self,
        alloc: Global,
        input: &mut Cursor<'_>,
        output: &mut Output,
    ) -> Option<()> {
        let seq = input.u32().ok()?;
        self.closing = Closing::of_pairs(read_pairs(alloc, input)?, seq)?;
        self.write_state(output)
    }

    fn close(&mut self, alloc: Global, input: &mut Cursor<'_>, output: &mut Output) -> Option<()> {
        self.closing.close(read_bucket(alloc, input)?)?;
        self.write_state(output)
    }

    /// Makes a merge and keeps it.
    fn keep(&mut self, job: MergeJob) -> Option<()> {
        self.kept.push(made(job)?).ok()
    }

    fn draw(&mut self, output: &mut Output) -> Option<()> {
        for _drawn in 0..11usize {
            let Some(job) = self.closing.next_job() else {
                return Some(());
            };
            output.number(job.level() as i128);
            output.number(job.seq() as i128);
            self.keep(job)?;
        }
        Some(())
    }

    fn make(&mut self, alloc: Global, input: &mut Cursor<'_>, output: &mut Output) -> Option<()> {
        let out = made(read_job(alloc, input)?)?;
        output.bytes(out.bucket().bytes());
        self.kept.push(out).ok()
    }

    fn again(&mut self, alloc: Global, input: &mut Cursor<'_>) -> Option<()> {
        let index = input.u32().ok()? as usize;
        let job = changed_job(alloc, self.kept.get(index)?, input)?;
        self.keep(job)
    }

    fn hand_in(&mut self, input: &mut Cursor<'_>, output: &mut Output) -> Option<()> {
        let index = input.u32().ok()? as usize;
        if index >= self.kept.len() {
            return None;
        }
        hand_in(&mut self.closing, self.kept.remove(index), output);
        Some(())
    }

    fn hand_in_others(
        &mut self,
        alloc: Global,
        input: &mut Cursor<'_>,
        output: &mut Output,
    ) -> Option<()> {
        if input.flag().ok()? {
            self.earlier = self.closing.restarted(alloc)?;
        }
        let mut others = self.earlier.renumbered(alloc, input.u32().ok()?)?;
        for _drawn in 0..11usize {
            let Some(job) = others.next_job() else {
                return Some(());
            };
            hand_in(&mut self.closing, made(job)?, output);
        }
        Some(())
    }
}

impl Machine for Board {
    fn step(
        &mut self,
        alloc: Global,
        name: &str,
        input: &mut Cursor<'_>,
        output: &mut Output,
    ) -> Option<()> {
        match name.as_bytes() {
            b"levels" => self.set_levels(alloc, input, output),
            b"close" => self.close(alloc, input, output),
            b"draw" => self.draw(output),
            b"make" => self.make(alloc, input, output),
            b"again" => self.again(alloc, input),
            b"hand_in" => self.hand_in(input, output),
            b"others" => self.hand_in_others(alloc, input, output),
            _ => None,
        }
    }
}

/// Takes the steps of lines, from levels of empty files on.
pub fn run_levels(alloc: Global, lines: &str, output: &mut Output) -> Option<()> {
    let mut board = Board::new(alloc)?;
    take_all(alloc, &mut board, lines, output);
    Some(())
}
