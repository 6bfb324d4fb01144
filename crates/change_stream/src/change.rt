//! Changes of entries.

ghost use Rattle.std.specs.Prelude.{◌≡◌, IfOk};
ghost use Rattle.change_stream.specs.Changes as spec;

use ledger_types::{LedgerEntry, LedgerKey};
use std::alloc::{AllocError, Global};

/// What happened to the entry under one key.
pub enum Change {
    /// An entry was put where there was none.
    Created {
        after: LedgerEntry,
    },
    /// An entry was put in place of another one.
    Updated {
        before: LedgerEntry,
        after: LedgerEntry,
    },
    /// An entry was removed.
    Removed {
        before: LedgerEntry,
    },
}

impl Drop for Change {
    fn drop(self) {
        match self {
            Change::Created { after } => drop(after),
            Change::Updated { before, after } => {
                drop(before);
                drop(after);
            }
            Change::Removed { before } => drop(before),
        }
    }
}

impl Change {
    /// The key of the entries.
    pub(crate) fn key(&self) -> Result<LedgerKey, AllocError>
        ensures { IfOk result (λ key. key ≡ spec.key_in self.now) }
    {
        match self {
            Change::Created { after } => after.key(),
            Change::Updated { before, after: _ } => before.key(),
            Change::Removed { before } => before.key(),
        }
    }
}

/// The change that undoes a change.
fn inverse(change: &Change) -> Result<Change, AllocError>
    ensures { IfOk result (λ inverse. inverse ≡ spec.inverse change.now) }
{
    match change {
        Change::Created { after } => Ok(Change::Removed {
            before: after.copy()?,
        }),
        Change::Updated { before, after } => {
            let earlier = before.copy()?;
            Ok(Change::Updated {
                before: after.copy()?,
                after: earlier,
            })
        }
        Change::Removed { before } => Ok(Change::Created {
            after: before.copy()?,
        }),
    }
}

/// The changes that undo a list of changes: the inverse of each, that of the last one first.
pub fn reverse(alloc: Global, list: &[Change]) -> Result<Vec<Change>, AllocError>
    ensures { IfOk result (λ changes. changes.items ≡ spec.reversed list.now) }
{
    let mut back = Vec::new(alloc);
    let mut ahead = list;
    while let Some((last, earlier)) = ahead.split_last() {
        let change = inverse(last)?;
        back.push(change)?;
        ahead = earlier;
    }
    Ok(back)
}
