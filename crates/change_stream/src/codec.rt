//! The encoding of changes, read and written (RFC 4506).

ghost use Rattle.std.specs.Prelude.{◌≡◌, ◌++◌, OnOk};
ghost use Rattle.xdr_core.specs.Position.{Reads};
ghost use Rattle.xdr_core.specs.ReadFault.{cause_of};
ghost use Rattle.change_stream.specs.Grammar as spec;

use crate::change::Change;
use std::alloc::{AllocError, Global};
use xdr_core::{Builder, Cursor, ReadFault, XdrKind};
use xdr_entries::{read_ledger_entry, write_ledger_entry};

/// An entry was put where there was none.
const CREATED: i32 = 0;

/// An entry was put in place of another one.
const UPDATED: i32 = 1;

/// An entry was removed.
const REMOVED: i32 = 2;

/// Reads both entries of an update.
fn read_update(alloc: Global, cursor: &mut Cursor<'_>) -> Result<Change, ReadFault>
    ensures { Reads cause_of result cursor.old cursor.new (spec.update_at cursor.old) }
{
    let mut ahead = cursor.fork();
    let before = read_ledger_entry(alloc, &mut ahead)?;
    let after = read_ledger_entry(alloc, &mut ahead)?;
    *cursor = ahead;
    Ok(Change::Updated { before, after })
}

/// Reads a change. A failure leaves the cursor as it was.
#[tactic(auto, unfolding(crate::specs::Grammar::one_change))]
pub fn read_change(alloc: Global, cursor: &mut Cursor<'_>) -> Result<Change, ReadFault>
    ensures { Reads cause_of result cursor.old cursor.new (spec.one_change.read cursor.old) }
{
    let mut ahead = cursor.fork();
    let change = match ahead.i32()? {
        CREATED => Change::Created {
            after: read_ledger_entry(alloc, &mut ahead)?,
        },
        UPDATED => read_update(alloc, &mut ahead)?,
        REMOVED => Change::Removed {
            before: read_ledger_entry(alloc, &mut ahead)?,
        },
        _ => return Err(ReadFault::Xdr(cursor.fault(XdrKind::BadEnum))),
    };
    *cursor = ahead;
    Ok(change)
}

/// Writes a change at the end of a text. Its entries have to keep the bounds of their formats on lengths and depth.
#[tactic(auto, using(crate::proofs::GrammarLaws::change_written))]
pub fn write_change(value: &Change, builder: &mut Builder) -> Result<(), AllocError>
    requires { spec.one_change.within value.now }
    ensures { OnOk result (builder.new ≡ builder.old ++ spec.one_change.encoding value.now) }
{
    write_arm(value, builder)
}

/// Writes the discriminant of a change, and what follows it.
#[tactic(auto, unfolding(crate::specs::Grammar::one_change))]
fn write_arm(value: &Change, builder: &mut Builder) -> Result<(), AllocError>
    requires { spec.one_change.within value.now }
    ensures { OnOk result (builder.new ≡ spec.one_change.onto builder.old value.now) }
{
    match value {
        Change::Created { after } => {
            builder.i32(CREATED)?;
            write_ledger_entry(after, builder)
        }
        Change::Updated { before, after } => {
            builder.i32(UPDATED)?;
            write_ledger_entry(before, builder)?;
            write_ledger_entry(after, builder)
        }
        Change::Removed { before } => {
            builder.i32(REMOVED)?;
            write_ledger_entry(before, builder)
        }
    }
}
