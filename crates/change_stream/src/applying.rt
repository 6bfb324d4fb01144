//! Applying changes to a ledger's entries.

ghost use Rattle.std.specs.Prelude.{◌≡◌, ◌↔◌, IsTrue, IfOk};
ghost use Rattle.change_stream.specs.Changes.{Fits};
ghost use Rattle.change_stream.specs.Applying as spec;

use crate::change::Change;
use crate::fault::StreamFault;
use entry_map::{Base, Entries};
use ledger_types::{LedgerEntry, LedgerKey};
use std::alloc::AllocError;

/// Whether two entries are the same, the ledgers of their last changes too.
fn are_same(one: &LedgerEntry, other: &LedgerEntry) -> bool
    ensures { IsTrue result ↔ (one.now ≡ other.now) }
{
    one.last_modified_ledger_seq == other.last_modified_ledger_seq && one.has_same_parts(other)
}

/// Whether two keys are the same.
fn are_one_key(one: &LedgerKey, other: &LedgerKey) -> bool
    ensures { IsTrue result ↔ (one.now ≡ other.now) }
{
    one == other
}

/// Whether an entry exists just as it is.
fn exists<B: Base>(entries: &Entries<'_, B>, entry: &LedgerEntry) -> Result<bool, AllocError>
    ensures { IfOk result (λ it_does. IsTrue it_does ↔ spec.Exists entries.now.current entry.now) }
{
    let key = entry.key()?;
    match entries.get(&key)? {
        None => Ok(false),
        Some(present) => Ok(are_same(&present, entry)),
    }
}

/// Whether no entry has the key of an entry.
fn is_free<B: Base>(entries: &Entries<'_, B>, entry: &LedgerEntry) -> Result<bool, AllocError>
    ensures { IfOk result (λ it_is. IsTrue it_is ↔ spec.IsFree entries.now.current entry.now) }
{
    let key = entry.key()?;
    Ok(entries.get(&key)?.is_none())
}

/// Whether two entries have one key.
fn have_one_key(one: &LedgerEntry, other: &LedgerEntry) -> Result<bool, AllocError>
    ensures { IfOk result (λ they_do. IsTrue they_do ↔ spec.HaveOneKey one.now other.now) }
{
    let key = one.key()?;
    Ok(are_one_key(&key, &other.key()?))
}

/// Whether a change fits the entries that exist.
fn fits<B: Base>(entries: &Entries<'_, B>, change: &Change) -> Result<bool, AllocError>
    ensures { IfOk result (λ it_does. IsTrue it_does ↔ Fits entries.now.current change.now) }
{
    match change {
        Change::Created { after } => is_free(entries, after),
        Change::Updated { before, after } => {
            if have_one_key(after, before)? {
                exists(entries, before)
            } else {
                Ok(false)
            }
        }
        Change::Removed { before } => exists(entries, before),
    }
}

/// Makes a change.
fn make<B: Base>(entries: &mut Entries<'_, B>, change: &Change) -> Result<(), AllocError>
    ensures { IfOk result (λ _. spec.IsMade entries.old change.now entries.new) }
{
    match change {
        Change::Created { after } => entries.put(after.copy()?),
        Change::Updated { before: _, after } => entries.put(after.copy()?),
        Change::Removed { before } => {
            let key = before.key()?;
            entries.erase(&key)
        }
    }
}

/// Makes changes one after another, up to the first that doesn't fit.
fn make_all<B: Base>(entries: &mut Entries<'_, B>, list: &[Change]) -> Result<(), StreamFault>
    ensures { spec.AreMade entries.old list.now result entries.new }
{
    let mut index = 0;
    for change in list {
        if !fits(entries, change)? {
            return Err(StreamFault::Mismatch { index });
        }
        make(entries, change)?;
        index += 1;
    }
    Ok(())
}

/// Applies a list of changes, one after another. Where one doesn't fit, the first such is named, and the entries are as
/// they were.
pub fn apply_changes<B: Base>(
    entries: &mut Entries<'_, B>,
    list: &[Change],
) -> Result<(), StreamFault>
    ensures { spec.AreApplied entries.old list.now result entries.new }
{
    entries.child()?;
    match make_all(entries, list) {
        Ok(()) => {
            entries.commit()?;
            Ok(())
        }
        Err(StreamFault::NoMemory) => Err(StreamFault::NoMemory),
        Err(fault) => {
            entries.drop_child();
            Err(fault)
        }
    }
}
