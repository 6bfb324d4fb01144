//! What a crash may leave of one file.

ghost use Rattle.std.specs.Prelude.{◌≡◌, IfOk, OnOk};
ghost use Rattle.outside.specs.MemDisk as spec;
ghost use Rattle.outside.specs.MemDisk.{same_file, fill_calls};

use crate::call::Call;
use crate::mem_disk::write_piece;
use std::alloc::{AllocError, Global};
use std::marker::Model;

// A file as it is read, and as a crash leaves it that puts a byte in the place of each that was written or cut since
// the last sync.
#[derive(Drop)]
struct FileLeft {
    bytes: Vec<u8>,
    left: Vec<u8>,
}

impl Model for FileLeft {
    ghost use Rattle.outside.specs.MemDisk as spec;

    ghost Value = { spec.FileLeft };

    ghost view = { λ f. record { reads = f.bytes.items; left = f.left.items } };
}

impl FileLeft {
    fn new(alloc: Global, bytes: &[u8]) -> Result<FileLeft, AllocError>
        ensures { IfOk result (λ f. f ≡ same_file bytes.now) }
    {
        Ok(FileLeft {
            bytes: Vec::from_slice(alloc, bytes)?,
            left: Vec::from_slice(alloc, bytes)?,
        })
    }

    fn write(
        &mut self,
        alloc: Global,
        fill: u8,
        at: u64,
        piece: &[u8],
        done: bool,
    ) -> Result<(), AllocError>
        ensures { OnOk result (self.new ≡ spec.fill_write fill at piece.now done self.old) }
    {
        let filling = vec![in alloc; fill; piece.len()]?;
        let mut left = write_piece(alloc, &self.left, fill, at, &filling)?;
        if done {
            self.bytes = write_piece(alloc, &self.bytes, 0, at, piece)?;
        } else {
            left.truncate(self.left.len());
        }
        self.left = left;
        Ok(())
    }

    fn cut(&mut self, alloc: Global, fill: u8, size: u64, done: bool) -> Result<(), AllocError>
        ensures { OnOk result (self.new ≡ spec.fill_cut fill size done self.old) }
    {
        let kept = size as usize;
        if done {
            self.bytes.truncate(kept);
            self.left.truncate(kept);
            return Ok(());
        }
        let length = self.left.len();
        let filling = vec![in alloc; fill; length.saturating_sub(kept)]?;
        let mut left = write_piece(alloc, &self.left, fill, size, &filling)?;
        left.truncate(length);
        self.left = left;
        Ok(())
    }

    fn call(&mut self, alloc: Global, fill: u8, file: u8, call: &Call) -> Result<(), AllocError>
        ensures { OnOk result (self.new ≡ spec.fill_call fill file call.now self.old) }
    {
        match call {
            Call::Write {
                file: other,
                at,
                piece,
                done,
            } => {
                if file == *other {
                    return self.write(alloc, fill, *at, piece, *done);
                }
                Ok(())
            }
            Call::Cut {
                file: other,
                size,
                done,
            } => {
                if file == *other {
                    return self.cut(alloc, fill, *size, *done);
                }
                Ok(())
            }
            Call::Sync => {
                self.left = Vec::from_slice(alloc, &self.bytes)?;
                Ok(())
            }
        }
    }
}

// What a crash leaves of a file that held these bytes at first, after these calls.
pub(crate) fn file_left(
    alloc: Global,
    fill: u8,
    file: u8,
    start: &[u8],
    log: &[Call],
) -> Result<Vec<u8>, AllocError>
    ensures { IfOk result (λ left. left.items ≡ (fill_calls fill file log.now (same_file start.now)).left) }
{
    let mut now = FileLeft::new(alloc, start)?;
    for call in log {
        now.call(alloc, fill, file, call)?;
    }
    Ok(now.left)
}
