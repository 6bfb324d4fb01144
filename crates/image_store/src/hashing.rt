//! The hash of what an image file holds.

ghost use Rattle.std.specs.Prelude.{◌≡◌, ◌≤◌, ◌<◌, ◌+◌, ◌^◌, IfOk, length, drop};
ghost use Rattle.sha2.specs.Sha256.{sha256};
ghost use Rattle.outside.specs.Streams.{HasCause};
ghost use Rattle.outside.specs.Disk.{Stays};

use gate_journal::read_exact;
use outside::{Failed, Volume};
use sha2::{Digest, Sha256};

/// How many bytes are read at once.
const CHUNK: u64 = 8192;

/// How many of so many bytes are read next.
fn next_count(left: u64) -> u64
    ensures most { result ≤ left }
    ensures some { 0 < left → 0 < result }
    ensures fits { result ≤ 8192 }
{
    if left < CHUNK { left } else { CHUNK }
}

/// SHA-256 of the bytes of a file from an offset to its end, of which there are so many. They are read in pieces, since
/// an image may be as large as memory.
pub(crate) fn hash_from<V: Volume>(
    vol: &mut V,
    file: u8,
    at: u64,
    len: u64,
) -> Result<[u8; 32], Failed>
    requires file { file < 4 }
    requires fits { at + len < 2 ^ 64 }
    requires size { V.reports → length ((V.disk vol.old).reads file) ≡ at + len }
    ensures hash { V.reports → IfOk result (λ digest. digest ≡ sha256 (drop at ((V.disk vol.old).reads file))) }
    ensures stays { Stays (V.disk vol.old) (V.disk vol.new) }
    ensures cause { HasCause (V.faults vol.old) (V.faults vol.new) result }
{
    let mut hasher = Sha256::new();
    let mut chunk = [0; 8192];
    let mut done = 0;
    while done < len {
        let count = next_count(len - done);
        let (piece, _) = chunk.split_at_mut(count as usize);
        read_exact(vol, file, at + done, piece)?;
        hasher.update(&*piece);
        done += count;
    }
    Ok(hasher.finalize())
}
