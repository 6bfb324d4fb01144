//! A volume in memory, for tests.

ghost use Rattle.std.specs.Prelude.{◌≡◌, ◌≢◌, ◌<◌, ◌≤◌, ◌+◌, ◌^◌, [], ℕ, List, length, take, drop, IfOk, OnOk, IsErr};
ghost use Rattle.std.specs.Prelude.{Some, None};
ghost use Rattle.outside.specs.Streams.{HasCause, Rose};
ghost use Rattle.outside.specs.Disk.{Image, Stays, Runs, Same, InFile, Torn, Wrote, CutShort, IsSafe};
ghost use Rattle.outside.specs.MemDisk.{disk_of, filled};
ghost use Rattle.outside.specs.MemLaws.{reads_now, now_counts, only_now};

use crate::call_plan::CallPlan;
use crate::failed::Failed;
use crate::mem_disk::MemDisk;
use crate::prefix::copy_prefix;
use crate::volume::Volume;
use std::alloc::{AllocError, Global};
use std::marker::Model;

/// A volume in memory, for tests. It keeps the list of its writes, cuts and syncs, by which it reports what a crash
/// might have left at each moment, and fails at chosen calls. Each call of the five counts, from 1 on. A growth that
/// memory refuses is a fault.
#[derive(Drop)]
pub struct MemVolume {
    alloc: Global,
    disk: MemDisk,
    plan: CallPlan,
    left: Option<u64>,
}

impl Model for MemVolume {
    ghost use Rattle.outside.specs.MemVolume.{VolumeState};

    ghost Value = { VolumeState };

    ghost view = { λ v. record {
      disk = v.disk;
      calls = v.plan.calls;
      failing = v.plan.failing.items;
      left = v.left;
      faults = v.plan.faults;
    } };
}

impl MemVolume {
    /// A volume of empty files, which fails only where memory is refused.
    pub fn new(alloc: Global) -> MemVolume
        ensures empty { (disk_of result.disk).reads ≡ (λ _. []) }
        ensures safe { IsSafe (disk_of result.disk) }
        ensures failing { result.failing ≡ [] }
        ensures left { result.left ≡ None }
        ensures faults { result.faults ≡ 0 }
    {
        MemVolume::fail_at(alloc, Vec::new(alloc))
    }

    /// A volume of empty files. The calls whose numbers, counted from 1, are in `calls` fail.
    pub fn fail_at(alloc: Global, calls: Vec<u64>) -> MemVolume
        ensures empty { (disk_of result.disk).reads ≡ (λ _. []) }
        ensures safe { IsSafe (disk_of result.disk) }
        ensures failing { result.failing ≡ calls.items }
        ensures left { result.left ≡ None }
        ensures faults { result.faults ≡ 0 }
    {
        MemVolume {
            alloc,
            disk: MemDisk::new(alloc),
            plan: CallPlan::new(calls),
            left: None,
        }
    }

    /// A volume of empty files. Each call after the first `calls` fails.
    pub fn stop_after(alloc: Global, calls: u64) -> MemVolume
        ensures empty { (disk_of result.disk).reads ≡ (λ _. []) }
        ensures safe { IsSafe (disk_of result.disk) }
        ensures failing { result.failing ≡ [] }
        ensures left { result.left ≡ Some calls }
        ensures faults { result.faults ≡ 0 }
    {
        MemVolume {
            alloc,
            disk: MemDisk::new(alloc),
            plan: CallPlan::new(Vec::new(alloc)),
            left: Some(calls),
        }
    }

    /// One content that a crash now may leave, as a volume with nothing pending that fails only where memory is
    /// refused: the present lengths, and the byte `fill` in the place of each that was written or cut since the last
    /// sync.
    pub fn crashed(&self, fill: u8) -> Result<MemVolume, AllocError>
        ensures filled { IfOk result (λ v. (disk_of v.disk).reads ≡ filled fill self.now.disk) }
        ensures image { IfOk result (λ v. (disk_of self.now.disk).may_leave (disk_of v.disk).reads) }
        ensures lengths { IfOk result (λ v. (k : ℕ)
            → length ((disk_of v.disk).reads k) ≡ length ((disk_of self.now.disk).reads k)) }
        ensures safe { IfOk result (λ v. IsSafe (disk_of v.disk)) }
        ensures failing { IfOk result (λ v. v.failing ≡ []) }
        ensures left { IfOk result (λ v. v.left ≡ None) }
        ensures faults { IfOk result (λ v. v.faults ≡ 0) }
    {
        Ok(MemVolume {
            alloc: self.alloc,
            disk: self.disk.crashed(self.alloc, fill)?,
            plan: CallPlan::new(Vec::new(self.alloc)),
            left: None,
        })
    }

    /// The bytes of a file, as a read gives them.
    pub fn bytes(&self, file: u8) -> &[u8]
        requires { file < 4 }
        ensures { result.now ≡ (disk_of self.now.disk).reads file }
    {
        self.disk.file(file)
    }

    /// How many calls have failed so far. It stops at 2^64 - 1.
    pub fn faults(&self) -> u64
        ensures { result ≡ self.now.faults }
    {
        self.plan.faults()
    }

    // Counts one more call, which fails where its number is in the plan, or where none is left. That is a fault.
    fn begin_call(&mut self) -> Result<(), Failed>
        ensures disk { self.new.disk ≡ self.old.disk }
        ensures cause { HasCause self.old.faults self.new.faults result }
    {
        match self.plan.begin_call() {
            Err(failed) => return Err(failed),
            Ok(()) => {}
        }
        match self.left {
            Some(0) => {
                self.plan.count_fault();
                Err(Failed)
            }
            Some(left) => {
                self.left = Some(left - 1);
                Ok(())
            }
            None => Ok(()),
        }
    }

    fn fail(&mut self) -> Failed
        ensures disk { self.new.disk ≡ self.old.disk }
        ensures later { self.old.faults ≤ self.new.faults }
        ensures rose { Rose self.old.faults self.new.faults }
    {
        self.plan.count_fault();
        Failed
    }
}

impl Volume for MemVolume {
    ghost reports = { Unit {0} };

    ghost disk = { λ v. disk_of v.disk };

    ghost faults = { λ v. v.faults };

    ghost reads_now = { λ v _. reads_now v.disk };

    ghost now_counts = { λ v t c before now. now_counts v.disk t c before now };

    ghost only_now = { λ v c left. only_now v.disk c left };

    fn len(&mut self, file: u8) -> Result<u64, Failed> {
        match self.begin_call() {
            Err(failed) => Err(failed),
            Ok(()) => Ok(self.disk.file(file).len() as u64),
        }
    }

    fn read_at(&mut self, file: u8, at: u64, buf: &mut [u8]) -> Result<usize, Failed> {
        match self.begin_call() {
            Err(failed) => return Err(failed),
            Ok(()) => {}
        }
        let (_, left) = self.disk.file(file).split_at(at as usize);
        Ok(copy_prefix(left, buf))
    }

    fn write_at(&mut self, file: u8, at: u64, piece: &[u8]) -> Result<(), Failed> {
        let planned = self.begin_call();
        if at.checked_add(piece.len() as u64).is_none() {
            return Err(self.fail());
        }
        if self
            .disk
            .write(self.alloc, file, at, piece, planned.is_ok())
            .is_err()
        {
            return Err(self.fail());
        }
        planned
    }

    fn cut(&mut self, file: u8, size: u64) -> Result<(), Failed> {
        let planned = self.begin_call();
        if self
            .disk
            .cut(self.alloc, file, size, planned.is_ok())
            .is_err()
        {
            return Err(self.fail());
        }
        planned
    }

    fn sync(&mut self) -> Result<(), Failed> {
        match self.begin_call() {
            Err(failed) => return Err(failed),
            Ok(()) => {}
        }
        match self.disk.sync() {
            Err(_) => Err(self.fail()),
            Ok(()) => Ok(()),
        }
    }
}
