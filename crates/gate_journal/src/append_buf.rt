//! The memory that one append takes, held before it.

ghost use Rattle.std.specs.Prelude.{◌≡◌, ◌≤◌, IfOk, length};
ghost use Rattle.gate_journal.specs.Records.{framed, max_record};

use byteorder::{BigEndian, ByteOrder};
use std::alloc::{AllocError, Global};
use std::marker::Model;

/// A record, with all the memory that its `append` takes: its bytes between its length and a closed gate.
#[derive(Drop)]
pub struct AppendBuf {
    piece: Vec<u8>,
}

impl Model for AppendBuf {
    ghost use Rattle.std.specs.Prelude.{◌≡◌, ◌≤◌, ◌-◌, ℕ, List, length, take, drop};
    ghost use Rattle.gate_journal.specs.Records.{framed, max_record};

    ghost Value = { List ℕ };

    ghost view = { λ buf. take (length buf.piece.items - 5) (drop 4 buf.piece.items) };

    ghost invariant = { λ buf. let bytes = take (length buf.piece.items - 5) (drop 4 buf.piece.items) in
        (buf.piece.items ≡ framed bytes) × (length bytes ≤ max_record) };
}

impl AppendBuf {
    /// A record of these bytes, at most 16777216.
    pub fn new(alloc: Global, bytes: &[u8]) -> Result<AppendBuf, AllocError>
        requires { length bytes.now ≤ max_record }
        ensures { IfOk result (λ buf. buf ≡ bytes.now) }
    {
        let mut length = [0; 4];
        BigEndian::write_u32(&mut length, bytes.len() as u32);
        let mut piece = Vec::with_capacity(alloc, bytes.len() + 5)?;
        piece.extend_from_slice(&length)?;
        piece.extend_from_slice(bytes)?;
        piece.push(0)?;
        Ok(AppendBuf { piece })
    }

    // How many bytes the record has.
    pub(crate) fn len(&self) -> usize
        ensures { result ≡ length self.now }
    {
        self.piece.len() - 5
    }

    // What is written after the gate.
    pub(crate) fn piece(&self) -> &[u8]
        ensures piece { result.now ≡ framed self.now }
        ensures short { length self.now ≤ max_record }
    {
        self.piece.as_slice()
    }
}
