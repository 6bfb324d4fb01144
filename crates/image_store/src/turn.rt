//! The turn to another epoch: its image file is shut and gets the image, its journal is cleared, and then its gate is
//! opened. The files of the present epoch aren't touched, so that each crash leaves the one or the other.

ghost use Rattle.std.specs.Prelude.{◌≡◌, ◌<◌, ◌+◌, false, OnOk, IfOk};
ghost use Rattle.outside.specs.Streams.{HasCause};
ghost use Rattle.outside.specs.Disk.{Runs, InFile, Torn, IsSafe};
ghost use Rattle.gate_journal.specs.Records.{IsShut};
ghost use Rattle.gate_journal.specs.Calls.{Anything};
ghost use Rattle.image_store.specs.Turning as spec;

use crate::gate::{Gate, OPEN, gate_of};
use gate_journal::Journal;
use outside::{Failed, Volume, write_and_sync};

/// A gate that isn't open.
const SHUT: u8 = 0;

/// Shuts an image file, and syncs. The gate of a long file that is shut is left as it is: a crash in a write of it
/// might open an image of long ago.
fn shut<V: Volume>(vol: &mut V, file: u8) -> Result<(), Failed>
    requires { file < 2 }
    ensures shut { V.reports → OnOk result (IsShut ((V.disk vol.new).reads file)) }
    ensures runs { V.reports → IsSafe (V.disk vol.old)
        → Runs (InFile file spec.IsSameOrNotOpen) (V.disk vol.old) (V.disk vol.new) }
    ensures others { V.reports → OnOk result (InFile file Anything (V.disk vol.old).reads (V.disk vol.new).reads) }
    ensures safe { OnOk result (IsSafe (V.disk vol.new)) }
    ensures cause { HasCause (V.faults vol.old) (V.faults vol.new) result }
{
    match gate_of(vol, file)? {
        Gate::Shut => vol.sync(),
        _ => write_and_sync(vol, file, 0, &[SHUT]),
    }
}

/// Puts a piece after the gate of an image file that is shut.
fn put<V: Volume>(vol: &mut V, file: u8, piece: &[u8]) -> Result<(), Failed>
    requires file { file < 2 }
    requires shut { V.reports → IsShut ((V.disk vol.old).reads file) }
    requires safe { V.reports → IsSafe (V.disk vol.old) }
    ensures put { V.reports → OnOk result (InFile file (spec.HasPiece piece.now)
        (V.disk vol.old).reads (V.disk vol.new).reads) }
    ensures runs { V.reports → Runs (InFile file spec.HasSameGate) (V.disk vol.old) (V.disk vol.new) }
    ensures cause { HasCause (V.faults vol.old) (V.faults vol.new) result }
{
    vol.cut(file, 1)?;
    vol.write_at(file, 1, piece)
}

/// Opens the gate of an image file, and syncs.
fn open<V: Volume>(vol: &mut V, file: u8) -> Result<(), Failed>
    requires { file < 2 }
    ensures opened { V.reports → OnOk result (InFile file spec.IsOpened (V.disk vol.old).reads (V.disk vol.new).reads) }
    ensures runs { Runs (InFile file (Torn 0 1)) (V.disk vol.old) (V.disk vol.new) }
    ensures safe { OnOk result (IsSafe (V.disk vol.new)) }
    ensures cause { HasCause (V.faults vol.old) (V.faults vol.new) result }
{
    write_and_sync(vol, file, 0, &[OPEN])
}

/// Puts a piece after the gate of an image file, makes its journal one without records, opens the gate, and syncs
/// before and after that.
pub(crate) fn turn<V: Volume>(vol: &mut V, file: u8, piece: &[u8]) -> Result<Journal, Failed>
    requires file { file < 2 }
    requires safe { V.reports → IsSafe (V.disk vol.old) }
    ensures journal { IfOk result (λ j. j ≡ record { file = 2 + file; end = 0; failed = false }) }
    ensures turned { V.reports → OnOk result (spec.IsTurned file piece.now
        (V.disk vol.old).reads (V.disk vol.new).reads) }
    ensures runs { V.reports → Runs (spec.IsTurning file piece.now) (V.disk vol.old) (V.disk vol.new) }
    ensures safe { OnOk result (IsSafe (V.disk vol.new)) }
    ensures cause { HasCause (V.faults vol.old) (V.faults vol.new) result }
{
    shut(vol, file)?;
    put(vol, file, piece)?;
    let Ok(journal) = Journal::clear(vol, 2 + file) else {
        return Err(Failed);
    };
    open(vol, file)?;
    Ok(journal)
}
