//! Locks on open files, which other processes see.

use std::fs::{File, Files, TryLockError};
use std::io;
use std::rt::LibcRuntime;

/// How a command uses the store.
#[derive(Clone, Copy)]
pub enum Access {
    /// It only reads, beside others that read.
    Read,
    /// It writes, alone.
    Write,
}

/// A system whose open files can be locked against other processes.
pub trait LockFiles: Files {
    /// Takes the lock of an open file for as long as it stays open: beside others that read, or alone. It waits for
    /// nobody: while another process holds the lock otherwise, that is an error.
    fn hold(&self, file: &Self::File, access: Access) -> io::Result<()>;
}

/// Takes the lock of a file.
fn hold_file(file: &File, access: Access) -> Result<(), TryLockError> {
    match access {
        Access::Read => file.try_lock_shared(),
        Access::Write => file.try_lock(),
    }
}

impl LockFiles for LibcRuntime {
    fn hold(&self, file: &File, access: Access) -> io::Result<()> {
        Ok(hold_file(file, access)?)
    }
}

impl<R: LockFiles> LockFiles for &R {
    fn hold(&self, file: &R::File, access: Access) -> io::Result<()> {
        (**self).hold(file, access)
    }
}
