//! The gate of an image file.

ghost use Rattle.std.specs.Prelude.{◌≡◌, ◌<◌, ◌^◌, IfOk};
ghost use Rattle.outside.specs.Streams.{HasCause};
ghost use Rattle.outside.specs.Disk.{Stays};
ghost use Rattle.image_store.specs.Reading as spec;

use gate_journal::read_exact;
use outside::{Failed, Volume};

/// How many bytes both formats have ahead of an image, or of its hash: the gate, the epoch, the network id and the
/// image's length.
pub(crate) const HEAD_LEN: u64 = 49;

/// A gate that is open.
pub(crate) const OPEN: u8 = 1;

/// What the gate of an image file says.
#[derive(Clone, Copy)]
pub(crate) enum Gate {
    /// The file is shorter than a head: no image is open in it, whatever its first byte.
    Short,
    /// The file is long enough, and its gate isn't open.
    Shut,
    /// An image is open, and the file has so many bytes.
    Open { size: u64 },
}

/// The gate of an image file.
pub(crate) fn gate_of<V: Volume>(vol: &mut V, file: u8) -> Result<Gate, Failed>
    requires { file < 2 }
    ensures reported { V.reports → IfOk result (λ gate. spec.ReportsGate ((V.disk vol.old).reads file) gate) }
    ensures fits { IfOk result (λ gate. spec.DoesGateFit gate) }
    ensures stays { Stays (V.disk vol.old) (V.disk vol.new) }
    ensures cause { HasCause (V.faults vol.old) (V.faults vol.new) result }
{
    let size = vol.len(file)?;
    if size < HEAD_LEN {
        return Ok(Gate::Short);
    }
    let mut gate = [0; 1];
    read_exact(vol, file, 0, &mut gate)?;
    if gate[0] == OPEN {
        Ok(Gate::Open { size })
    } else {
        Ok(Gate::Shut)
    }
}
