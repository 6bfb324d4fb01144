//! A volume over four files of a directory.

ghost use Rattle.std.specs.Prelude.{◌≡◌, ◌≤◌};
ghost use Rattle.outside.specs.Disk.{untold};
ghost use Rattle.outside.specs.Streams.{Rose};

use crate::directory::Directory;
use crate::failed::Failed;
use crate::lock_files::{Access, LockFiles};
use crate::volume::Volume;

/// The files `image0`, `image1`, `journal0` and `journal1` of the directory `ledger-store`, in that order. A file that
/// isn't there has no bytes, is passed over by a sync, and is made, with the directory, by the first write or cut. A
/// sync reaches the files, the directory where a file was made since the last one, and the directory's parent where
/// the directory was. Each error of the system is a fault, and so is a read that gives no byte. It reports nothing of
/// its bytes.
///
/// A store belongs to one writer: before its first call on a directory that is there, and else with the first write, it
/// takes the lock of the file `lock` beside the four, for as long as it exists. A call that can't take it fails, and so
/// does the first one that meets bytes of another process in a directory that wasn't there before.
#[derive(Drop)]
pub struct DirVolume<R: LockFiles> {
    directory: Directory<R>,
    faults: u64,
}

impl<R: LockFiles> DirVolume<R> {
    /// The files as they are in the working directory, for a command that uses them so.
    pub fn new(system: R, access: Access) -> DirVolume<R>
        ensures { ⟦<DirVolume<R> as Volume>⟧.faults result ≡ 0 }
    {
        DirVolume {
            directory: Directory::new(system, access),
            faults: 0,
        }
    }

    fn fail(&mut self) -> Failed
        ensures later { self.old.faults ≤ self.new.faults }
        ensures rose { Rose self.old.faults self.new.faults }
    {
        self.faults = self.faults.saturating_add(1);
        Failed
    }
}

impl<R: LockFiles> Volume for DirVolume<R> {
    ghost reports = { ⊥ };

    ghost disk = { λ _. untold };

    ghost faults = { λ v. v.faults };

    ghost reads_now = { λ v reported. absurd reported };

    ghost now_counts = { λ v t c before now. absurd now };

    ghost only_now = { λ v c left. absurd left };

    fn len(&mut self, file: u8) -> Result<u64, Failed> {
        match self.directory.length(file) {
            Ok(length) => Ok(length),
            Err(_) => Err(self.fail()),
        }
    }

    fn read_at(&mut self, file: u8, at: u64, buf: &mut [u8]) -> Result<usize, Failed> {
        match self.directory.read(file, at, buf) {
            Ok(count) if count > 0 || buf.is_empty() => Ok(count),
            _ => Err(self.fail()),
        }
    }

    fn write_at(&mut self, file: u8, at: u64, piece: &[u8]) -> Result<(), Failed> {
        if at.checked_add(piece.len() as u64).is_none() {
            return Err(self.fail());
        }
        match self.directory.write(file, at, piece) {
            Ok(()) => Ok(()),
            Err(_) => Err(self.fail()),
        }
    }

    fn cut(&mut self, file: u8, size: u64) -> Result<(), Failed> {
        match self.directory.shorten(file, size) {
            Ok(()) => Ok(()),
            Err(_) => Err(self.fail()),
        }
    }

    fn sync(&mut self) -> Result<(), Failed> {
        match self.directory.keep() {
            Ok(()) => Ok(()),
            Err(_) => Err(self.fail()),
        }
    }
}
