//! Changes that are kept or undone.

ghost use Rattle.std.specs.Prelude.{◌≡◌, OnOk, if◌then◌else◌};
ghost use Rattle.entry_map.specs.Undo as undo;

use entry_map::{Base, Entries};
use std::alloc::AllocError;

/// Keeps the changes of the newest child, or undoes them.
pub fn settle<B: Base>(entries: &mut Entries<'_, B>, keeps: bool) -> Result<(), AllocError>
    requires { undo.IsOpen entries.old }
    ensures { OnOk result (
        entries.new ≡ (if keeps then undo.kept entries.old else undo.undone entries.old)) }
{
    if keeps {
        return entries.commit();
    }
    entries.drop_child();
    Ok(())
}
