//! Writing a history in one text piece by piece, so that no file is copied.

ghost use Rattle.std.specs.Prelude.{◌≡◌, IfOk, length};
ghost use Rattle.xdr_core.specs.Leaves.{u64 as length_format};
ghost use Rattle.archive_files.specs.Stating as spec;

use ledger_types::Hash;
use std::alloc::{AllocError, Global};
use xdr_core::Builder;
use xdr_entries::write_hash;

/// The bytes `SLH1`, as a discriminant.
const MAGIC: i32 = 0x534C4831;

/// What a history in one text begins with, before the length of its first file: the bytes `SLH1`, the hash of the
/// ledger before the chain, and the number of its first ledger.
pub fn stated_head(alloc: Global, before: &Hash, first: u32) -> Result<Builder, AllocError>
    ensures { IfOk result (λ text. text ≡ spec.stated_head before.now first) }
{
    let mut text = Builder::new(alloc);
    text.tag(MAGIC)?;
    write_hash(before, &mut text)?;
    text.u32(first)?;
    Ok(text)
}

/// The length of a file, in bytes, as it stands before the file.
#[tactic(auto, unfolding(xdr_core::specs::Leaves::u64))]
pub fn file_length(file: &[u8]) -> [u8; 8]
    ensures { result ≡ length_format.encoding (length file.now) }
{
    (file.len() as u64).to_be_bytes()
}
