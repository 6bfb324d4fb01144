//! What the files of a volume in memory hold, and what a crash may leave of them.

ghost use Rattle.std.specs.Prelude.{◌≡◌, ◌<◌, ◌≤◌, ◌≢◌, [], ◌∷◌, ◌++◌, ℕ, List, Bool, true, length, take, IfOk, OnOk};
ghost use Rattle.std.specs.Prelude.{OnErr, IsTrue};
ghost use Rattle.outside.specs.Disk.{Image, Runs, Same, InFile, Torn, Wrote, CutShort, IsSafe};
ghost use Rattle.outside.specs.MemDisk as spec;
ghost use Rattle.outside.specs.MemDisk.{image_of, items_of, written, with_file, disk_of, now_on_disk, after_call};
ghost use Rattle.outside.specs.MemDisk.{filled};

use crate::call::Call;
use crate::file_left::file_left;
use std::alloc::{AllocError, Global};
use std::marker::Model;

// Four files in memory, with the writes, cuts and syncs since they were made.
#[derive(Drop)]
pub(crate) struct MemDisk {
    start: [Vec<u8>; 4],
    files: [Vec<u8>; 4],
    log: Vec<Call>,
}

impl Model for MemDisk {
    ghost use Rattle.std.specs.Prelude.{◌≡◌};
    ghost use Rattle.outside.specs.MemDisk.{DiskState, items_of, image_of, now_on_disk, AreOfFiles};

    ghost Value = { DiskState };

    ghost view = { λ d. record { start = items_of d.start; log = d.log.items } };

    ghost invariant = { λ d. AreOfFiles d.log.items × (image_of (items_of d.files)
        ≡ (now_on_disk (record { start = items_of d.start; log = d.log.items })).reads) };
}

// A file with a piece in it, and with the byte `gap` between where it ended and where the piece begins.
pub(crate) fn write_piece(
    alloc: Global,
    old: &[u8],
    gap: u8,
    at: u64,
    piece: &[u8],
) -> Result<Vec<u8>, AllocError>
    ensures { IfOk result (λ next. next.items ≡ written gap at piece.now old.now) }
{
    let at = at as usize;
    let mut next = Vec::from_slice(alloc, old.split_at(at.min(old.len())).0)?;
    next.resize(at, gap)?;
    next.extend_from_slice(piece)?;
    if piece.len() < old.len().saturating_sub(at) {
        next.extend_from_slice(&old[at + piece.len()..])?;
    }
    Ok(next)
}

impl MemDisk {
    // Empty files.
    pub(crate) fn new(alloc: Global) -> MemDisk
        ensures log { result.log ≡ [] }
        ensures empty { (disk_of result).reads ≡ (λ _. []) }
    {
        MemDisk {
            start: [
                Vec::new(alloc),
                Vec::new(alloc),
                Vec::new(alloc),
                Vec::new(alloc),
            ],
            files: [
                Vec::new(alloc),
                Vec::new(alloc),
                Vec::new(alloc),
                Vec::new(alloc),
            ],
            log: Vec::new(alloc),
        }
    }

    pub(crate) fn file(&self, file: u8) -> &[u8]
        requires { file < 4 }
        ensures { result.now ≡ (disk_of self.now).reads file }
    {
        self.files[usize::from(file)].as_slice()
    }

    // Notes a call that changes nothing that is read.
    fn note(&mut self, call: Call) -> Result<(), AllocError>
        requires file { spec.IsOfFile call }
        requires reads { (after_call call (now_on_disk self.old)).reads ≡ (now_on_disk self.old).reads }
        ensures noted { OnOk result (self.new ≡ record self.old { log = self.old.log ++ call ∷ [] }) }
        ensures refused { OnErr result (self.new ≡ self.old) }
    {
        self.log.push(call)?;
        Ok(())
    }

    // Notes a call that puts these bytes in the place of a file.
    fn put(&mut self, call: Call, file: u8, next: Vec<u8>) -> Result<(), AllocError>
        requires file { file < 4 }
        requires call { spec.IsOfFile call }
        requires reads { (after_call call (now_on_disk self.old)).reads
            ≡ with_file file (λ _. next.items) (now_on_disk self.old).reads }
        ensures noted { OnOk result (self.new ≡ record self.old { log = self.old.log ++ call ∷ [] }) }
        ensures refused { OnErr result (self.new ≡ self.old) }
    {
        self.log.push(call)?;
        self.files[usize::from(file)] = next;
        Ok(())
    }

    // Writes a piece, or fails and counts its range alone.
    pub(crate) fn write(
        &mut self,
        alloc: Global,
        file: u8,
        at: u64,
        piece: &[u8],
        done: bool,
    ) -> Result<(), AllocError>
        requires { file < 4 }
        ensures written { OnOk result (IsTrue done → at ≤ length ((disk_of self.old).reads file)
            → InFile file (Wrote at piece.now) (disk_of self.old).reads (disk_of self.new).reads) }
        ensures runs { Runs (InFile file (Torn at (length piece.now))) (disk_of self.old) (disk_of self.new) }
        ensures refused { OnErr result (self.new ≡ self.old) }
    {
        let call = Call::Write {
            file,
            at,
            piece: Vec::from_slice(alloc, piece)?,
            done,
        };
        if !done {
            return self.note(call);
        }
        let next = write_piece(alloc, self.file(file), 0, at, piece)?;
        self.put(call, file, next)
    }

    // Cuts a file, or fails and counts its range alone.
    pub(crate) fn cut(
        &mut self,
        alloc: Global,
        file: u8,
        size: u64,
        done: bool,
    ) -> Result<(), AllocError>
        requires file { file < 4 }
        requires within { size ≤ length ((disk_of self.old).reads file) }
        ensures cut { OnOk result (IsTrue done → InFile file (λ old new. new ≡ take size old)
            (disk_of self.old).reads (disk_of self.new).reads) }
        ensures runs { Runs (InFile file (CutShort size)) (disk_of self.old) (disk_of self.new) }
        ensures refused { OnErr result (self.new ≡ self.old) }
    {
        let call = Call::Cut { file, size, done };
        if !done {
            return self.note(call);
        }
        let (prefix, _) = self.file(file).split_at(size as usize);
        let next = Vec::from_slice(alloc, prefix)?;
        self.put(call, file, next)
    }

    // Keeps what the files hold.
    pub(crate) fn sync(&mut self) -> Result<(), AllocError>
        ensures safe { OnOk result (IsSafe (disk_of self.new)) }
        ensures runs { Runs Same (disk_of self.old) (disk_of self.new) }
        ensures reads { (disk_of self.new).reads ≡ (disk_of self.old).reads }
        ensures refused { OnErr result (self.new ≡ self.old) }
    {
        self.note(Call::Sync)
    }

    // A file in one content that a crash may leave: it is as long as it is read, and has the byte `fill` in the place
    // of each that was written or cut since the last sync.
    fn file_left(&self, alloc: Global, fill: u8, file: u8) -> Result<Vec<u8>, AllocError>
        requires { file < 4 }
        ensures left { IfOk result (λ left. left.items ≡ filled fill self.now file) }
        ensures files { length self.now.start ≡ 4 }
    {
        file_left(alloc, fill, file, &self.start[usize::from(file)], &self.log)
    }

    // That content, as a disk with nothing pending.
    pub(crate) fn crashed(&self, alloc: Global, fill: u8) -> Result<MemDisk, AllocError>
        ensures log { IfOk result (λ disk. disk.log ≡ []) }
        ensures reads { IfOk result (λ disk. (disk_of disk).reads ≡ filled fill self.now) }
    {
        let start = [
            self.file_left(alloc, fill, 0)?,
            self.file_left(alloc, fill, 1)?,
            self.file_left(alloc, fill, 2)?,
            self.file_left(alloc, fill, 3)?,
        ];
        let files = copy_files(alloc, &start)?;
        // Brings what is kept of the log into view.
        let _ = &self.log;
        Ok(MemDisk {
            start,
            files,
            log: Vec::new(alloc),
        })
    }
}

fn copy_files(alloc: Global, files: &[Vec<u8>; 4]) -> Result<[Vec<u8>; 4], AllocError>
    ensures { IfOk result (λ copies. items_of copies ≡ items_of files.now) }
{
    Ok([
        Vec::from_slice(alloc, &files[0])?,
        Vec::from_slice(alloc, &files[1])?,
        Vec::from_slice(alloc, &files[2])?,
        Vec::from_slice(alloc, &files[3])?,
    ])
}
