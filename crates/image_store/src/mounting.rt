//! Which image of a volume counts, and reading it.

ghost use Rattle.std.specs.Prelude.{◌≡◌, ◌<◌, ◌+◌, ◌^◌, IfOk, IfSome, length};
ghost use Rattle.outside.specs.Disk.{Stays};
ghost use Rattle.xdr_core.specs.Format.{IsBytes};
ghost use Rattle.gate_journal.specs.Reading.{HasReadCause};
ghost use Rattle.image_store.specs.Reading as spec;
ghost use Rattle.image_store.specs.ImageFiles.{image_offset};

use crate::head::{Head, head_of, image_offset};
use gate_journal::{StoreFault, read_bytes};
use outside::Volume;
use record_stream::{ImageLength, Measure, take_image};
use std::alloc::Global;
use xdr_header::StartImage;

/// The file whose image counts, and its head: of two open images that with the greater epoch.
fn greater(first: Option<Head>, second: Option<Head>) -> Option<(u8, Head)>
    ensures { result ≡ spec.greater_of first second }
{
    match first {
        None => match second {
            None => None,
            Some(other) => Some((1, other)),
        },
        Some(head) => match second {
            Some(other) if head.epoch < other.epoch => Some((1, other)),
            _ => Some((0, head)),
        },
    }
}

/// The file whose image counts, and its head.
pub(crate) fn chosen<V: Volume>(vol: &mut V) -> Result<Option<(u8, Head)>, StoreFault>
    ensures reported { V.reports → spec.ReportsChosen (V.disk vol.old).reads result }
    ensures fits { IfOk result (λ found. IfSome found (λ (file, head). (file < 2) × spec.DoesHeadFit file head)) }
    ensures stays { Stays (V.disk vol.old) (V.disk vol.new) }
    ensures cause { HasReadCause (V.faults vol.old) (V.faults vol.new) result }
{
    let first = head_of(vol, 0)?;
    let second = match head_of(vol, 1) {
        Err(wrong) => return Err(wrong),
        Ok(second) => second,
    };
    Ok(greater(first, second))
}

/// Whether bytes are an image and nothing after it.
fn is_complete(bytes: &[u8]) -> bool
    ensures fits { IsBytes bytes.now }
    ensures entire { spec.ReportsComplete bytes.now result }
{
    match ImageLength::measure(bytes) {
        Ok(end) => end == bytes.len(),
        Err(_) => false,
    }
}

/// The image that bytes are, with nothing after it, which stand at this offset of a file.
fn complete_image(
    alloc: Global,
    file: u8,
    at: u64,
    bytes: Vec<u8>,
) -> Result<StartImage, StoreFault>
    ensures { spec.ReportsBytes file at bytes.items result }
{
    if !is_complete(bytes.as_slice()) {
        return Err(StoreFault::BadStore { file, place: at });
    }
    let mut ahead = bytes;
    match take_image(alloc, &mut ahead) {
        Ok(image) => Ok(image),
        Err(_) => Err(StoreFault::NoMemory),
    }
}

/// The image of a file with this head. `BadStore` says that it is none, at its offset.
pub(crate) fn image_of<V: Volume>(
    alloc: Global,
    vol: &mut V,
    file: u8,
    head: &Head,
) -> Result<StartImage, StoreFault>
    requires file { file < 2 }
    requires fits { spec.DoesHeadFit file head.now }
    requires size { V.reports → spec.IsHeadSized ((V.disk vol.old).reads file) head.now }
    ensures reported { V.reports → spec.ReportsImage file (image_offset head.now.format)
        ((V.disk vol.old).reads file) result }
    ensures stays { Stays (V.disk vol.old) (V.disk vol.new) }
    ensures cause { HasReadCause (V.faults vol.old) (V.faults vol.new) result }
{
    let at = image_offset(head.format);
    let bytes = read_bytes(alloc, vol, file, at, head.len as usize)?;
    complete_image(alloc, file, at, bytes)
}
