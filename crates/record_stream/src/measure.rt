//! How long the piece at the start of a text is. No memory is taken for it.

ghost use Rattle.std.specs.Prelude.{◌≡◌, ℕ, List, Result};
ghost use Rattle.xdr_core.specs.declared.fault.XdrFault.{XdrFault as Fault};
ghost use Rattle.record_stream.specs.Measured as spec;

use crate::layout::layout_of;
use xdr_core::{Cursor, XdrFault};

/// A kind of piece. The type that is one is a marker.
pub trait Measure {
    // Where the piece at the start of a text ends, or the first fault.
    ghost measured: { List ℕ → Result ℕ Fault };

    /// Where the piece at the start of a text ends, or the first fault.
    fn measure(text: &[u8]) -> Result<usize, XdrFault>
        ensures { result ≡ measured text.now };
}

/// A record of a close after its mark, of at most 16777216 bytes.
pub struct RecordLength;

/// The most bytes of a record.
const MAX_RECORD_LEN: u32 = 16777216;

fn record_length(text: &[u8]) -> Result<usize, XdrFault>
    ensures { result ≡ spec.record_end text.now }
{
    let mut ahead = Cursor::new(text);
    ahead.mark(MAX_RECORD_LEN)?;
    Ok(ahead.at())
}

impl Measure for RecordLength {
    ghost measured = { spec.record_end };

    fn measure(text: &[u8]) -> Result<usize, XdrFault> {
        record_length(text)
    }
}

/// A start image.
pub struct ImageLength;

fn image_length(text: &[u8]) -> Result<usize, XdrFault>
    ensures { result ≡ spec.image_end text.now }
{
    Ok(layout_of(text)?.end)
}

impl Measure for ImageLength {
    ghost measured = { spec.image_end };

    fn measure(text: &[u8]) -> Result<usize, XdrFault> {
        image_length(text)
    }
}
