//! Texts of at most 64 bytes.

ghost use Rattle.std.specs.Prelude.{◌≡◌, OnOk};
ghost use Rattle.xdr_core.specs.Position.{Reads, itself};
ghost use Rattle.xdr_entries.specs.Basic as spec;

use ledger_types::Bytes64;
use std::alloc::AllocError;
use xdr_core::{Builder, Cursor, XdrFault};

/// The most bytes of an opaque<64>.
const MAX_LEN: u32 = 64;

/// Reads at most 64 bytes after their number, and their padding.
pub fn read_bytes64(cursor: &mut Cursor<'_>) -> Result<Bytes64, XdrFault>
    ensures { Reads itself result cursor.old cursor.new (spec.bytes64.read cursor.old) }
{
    let bytes = cursor.var(MAX_LEN)?;
    let Some(text) = Bytes64::from_slice(bytes) else {
        unreachable!();
    };
    Ok(text)
}

/// Writes at most 64 bytes after their number, and their padding.
#[tactic(auto, unfolding(xdr_core::specs::Leaves::var))]
pub fn write_bytes64(value: &Bytes64, builder: &mut Builder) -> Result<(), AllocError>
    ensures { OnOk result (builder.new ≡ spec.bytes64.onto builder.old value.now) }
{
    builder.var(value.as_slice(), MAX_LEN)
}
