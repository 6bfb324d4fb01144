//! The trusted edge of a volume: calls of the system on four files of a directory and on the lock beside them.

ghost use Rattle.std.specs.Io.{ReadsAtMost};

use crate::lock_files::{Access, LockFiles};
use std::fs::{OpenFile, OpenOptions};
use std::io::{ErrorKind, Read, Seek, SeekFrom, Write};
use std::{fs, io};

const DIRECTORY: &str = "ledger-store";

const PARENT: &str = ".";

const LOCK: &str = "ledger-store/lock";

fn path_of(file: u8) -> &'static str {
    match file {
        0 => "ledger-store/image0",
        1 => "ledger-store/image1",
        2 => "ledger-store/journal0",
        _ => "ledger-store/journal1",
    }
}

// The four files, of which those that were written since the last sync are open, and the lock.
#[derive(Drop)]
pub(crate) struct Directory<R: LockFiles> {
    system: R,
    access: Access,
    // It is taken before the first call on a directory that is there, and else with the first write.
    lock: Option<R::File>,
    // Whether a call found no directory, and so no byte of the four files.
    was_absent: bool,
    // A handle stays open from a write to its sync, since an error may be reported to it alone.
    image0: Option<R::File>,
    image1: Option<R::File>,
    journal0: Option<R::File>,
    journal1: Option<R::File>,
    // What was made since the last sync, and at first what an earlier process may have made and not synced.
    file_made: bool,
    directory_made: bool,
}

impl<R: LockFiles> Directory<R> {
    pub(crate) fn new(system: R, access: Access) -> Directory<R> {
        Directory {
            system,
            access,
            lock: None,
            was_absent: false,
            image0: None,
            image1: None,
            journal0: None,
            journal1: None,
            file_made: true,
            directory_made: true,
        }
    }

    fn handle(&mut self, file: u8) -> &mut Option<R::File> {
        match file {
            0 => &mut self.image0,
            1 => &mut self.image1,
            2 => &mut self.journal0,
            _ => &mut self.journal1,
        }
    }

    // The lock's file, locked. It is made where it isn't there, as in a store of an older program.
    fn locked(&self) -> io::Result<R::File> {
        let found = match OpenOptions::new().read(true).open(&self.system, LOCK) {
            Err(error) if error.kind() == ErrorKind::NotFound => OpenOptions::new()
                .read(true)
                .write(true)
                .create(true)
                .open(&self.system, LOCK)?,
            found => found?,
        };
        self.system.hold(&found, self.access)?;
        Ok(found)
    }

    // Takes the lock of a directory that is there. Where a call found none before, any byte that is there now is
    // another process's, and what was answered of it is out of date.
    fn take_lock(&mut self) -> io::Result<()> {
        let lock = self.locked()?;
        if self.was_absent {
            for file in 0..4 {
                if self.found_length(file)? != 0 {
                    return Err(io::Error::from(ErrorKind::AlreadyExists));
                }
            }
        }
        self.lock = Some(lock);
        Ok(())
    }

    // Takes the lock, unless it is held or there is no directory yet.
    fn enter(&mut self) -> io::Result<()> {
        if self.lock.is_some() {
            return Ok(());
        }
        match fs::metadata(&self.system, DIRECTORY) {
            Ok(_) => self.take_lock(),
            Err(error) if error.kind() == ErrorKind::NotFound => {
                self.was_absent = true;
                Ok(())
            }
            Err(error) => Err(error),
        }
    }

    // Makes the directory and takes its lock, unless it is held.
    fn claim(&mut self) -> io::Result<()> {
        if self.lock.is_some() {
            return Ok(());
        }
        match fs::create_dir(&self.system, DIRECTORY) {
            Ok(()) => self.directory_made = true,
            Err(error) if error.kind() == ErrorKind::AlreadyExists => {}
            Err(error) => return Err(error),
        }
        // no byte was seen so far
        self.was_absent = true;
        self.take_lock()
    }

    pub(crate) fn length(&mut self, file: u8) -> io::Result<u64> {
        self.enter()?;
        self.found_length(file)
    }

    fn found_length(&self, file: u8) -> io::Result<u64> {
        match fs::metadata(&self.system, path_of(file)) {
            Ok(found) => Ok(found.len()),
            Err(error) if error.kind() == ErrorKind::NotFound => Ok(0),
            Err(error) => Err(error),
        }
    }

    pub(crate) fn read(&mut self, file: u8, at: u64, buf: &mut [u8]) -> io::Result<usize>
        ensures { ReadsAtMost result buf.new }
    {
        self.enter()?;
        let mut found = OpenOptions::new()
            .read(true)
            .open(&self.system, path_of(file))?;
        found.seek(SeekFrom::Start(at))?;
        found.read(buf)
    }

    // A file to be written, which is made where it isn't there, and so is the directory.
    fn open(&mut self, file: u8) -> io::Result<R::File> {
        self.claim()?;
        match OpenOptions::new()
            .write(true)
            .open(&self.system, path_of(file))
        {
            Err(error) if error.kind() == ErrorKind::NotFound => {}
            found => return found,
        }
        self.file_made = true;
        OpenOptions::new()
            .write(true)
            .create(true)
            .open(&self.system, path_of(file))
    }

    // Opens a file where no handle of it is open.
    fn hold(&mut self, file: u8) -> io::Result<()> {
        if self.handle(file).is_none() {
            let found = self.open(file)?;
            *self.handle(file) = Some(found);
        }
        Ok(())
    }

    pub(crate) fn write(&mut self, file: u8, at: u64, piece: &[u8]) -> io::Result<()> {
        self.hold(file)?;
        match self.handle(file) {
            None => Err(io::Error::from(ErrorKind::NotFound)),
            Some(found) => {
                found.seek(SeekFrom::Start(at))?;
                found.write_all(piece)
            }
        }
    }

    pub(crate) fn shorten(&mut self, file: u8, size: u64) -> io::Result<()> {
        self.hold(file)?;
        match self.handle(file) {
            None => Err(io::Error::from(ErrorKind::NotFound)),
            Some(found) => found.set_len(size),
        }
    }

    // Syncs what exists under a name, if anything does.
    fn keep_name(&self, path: &str) -> io::Result<()> {
        match OpenOptions::new().read(true).open(&self.system, path) {
            Ok(found) => found.sync_all(),
            Err(error) if error.kind() == ErrorKind::NotFound => Ok(()),
            Err(error) => Err(error),
        }
    }

    fn keep_file(&mut self, file: u8) -> io::Result<()> {
        match self.handle(file) {
            None => return self.keep_name(path_of(file)),
            Some(found) => found.sync_all()?,
        }
        *self.handle(file) = None;
        Ok(())
    }

    pub(crate) fn keep(&mut self) -> io::Result<()> {
        self.enter()?;
        for file in 0..4 {
            self.keep_file(file)?;
        }
        if self.file_made {
            self.keep_name(DIRECTORY)?;
            self.file_made = false;
        }
        if self.directory_made {
            self.keep_name(PARENT)?;
            self.directory_made = false;
        }
        Ok(())
    }
}
