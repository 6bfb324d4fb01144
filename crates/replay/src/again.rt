//! The records of a journal, closed again.

ghost use Rattle.std.specs.Prelude.{◌≡◌, ◌↔◌, ◌≤◌, ◌<◌, ◌^◌, length, IsTrue};
ghost use Rattle.xdr_core.specs.Format.{IsBytes};
ghost use Rattle.image_store.specs.gate_journal.Records.{blocks};
ghost use Rattle.stored_outcome.specs.Opening.{IsOfForm2, MayHold};
ghost use Rattle.replay.specs.ClosingAgain as spec;
ghost use Rattle.replay.specs.StoredRuns.{AreShort};

use item_list::ItemList;
use outside::Steps;
use std::sync::ledger::Ledger as Count;
use worker_merges::ledger_close::{CloseFault, Ledger};
use xdr_core::Cursor;
use xdr_header::FORM_2;

/// Why the records of a journal don't all close.
#[derive(Clone, Copy)]
pub(crate) enum AgainFault {
    /// The record whose gate is at this offset is refused.
    Refused { offset: u64 },
    /// Memory was refused.
    NoMemory,
}

/// Why a record doesn't close.
#[derive(Clone, Copy)]
pub(crate) enum OneFault {
    /// It is refused.
    Refused,
    /// Memory was refused.
    NoMemory,
}

/// Whether a record is of form 2, by its first word.
fn is_of_form_2(bytes: &[u8]) -> bool
    ensures { IsTrue result ↔ IsOfForm2 bytes.now }
{
    match Cursor::new(bytes).u32() {
        Ok(word) => word == FORM_2,
        Err(_) => false,
    }
}

/// Whether an epoch of a format may hold a record: one of format 1 holds none of form 2.
fn may_hold(format: u8, bytes: &[u8]) -> bool
    ensures { IsTrue result ↔ MayHold format bytes.now }
{
    format != 1 || !is_of_form_2(bytes)
}

/// Closes the ledger of a record again, which stands in an epoch of this format.
fn close_one<L: Count>(
    ledger: &mut Ledger,
    format: u8,
    bytes: &[u8],
    steps: &mut Steps<L>,
) -> Result<(), OneFault>
    requires { length bytes.now ≤ 16777216 }
    ensures { spec.ClosesOne format ledger.old.state bytes.now ledger.new.state result }
{
    if !may_hold(format, bytes) {
        return Err(OneFault::Refused);
    }
    match ledger.prepare(bytes, steps) {
        Ok(prepared) => {
            ledger.install(prepared);
            Ok(())
        }
        Err(fault) => match fault {
            CloseFault::NoMemory => Err(OneFault::NoMemory),
            _ => Err(OneFault::Refused),
        },
    }
}

/// Closes the ledgers of the records again that the journal of an epoch of this format holds.
pub(crate) fn close_again<L: Count>(
    ledger: &mut Ledger,
    format: u8,
    closes: &[ItemList<u8>],
    steps: &mut Steps<L>,
) -> Result<(), AgainFault>
    requires short { AreShort closes.now }
    requires fits { length (blocks closes.now) < 2 ^ 64 }
    ensures { spec.ClosesAgain format ledger.old.state closes.now ledger.new.state result }
{
    let mut at: u64 = 0;
    let mut i = 0;
    while i < closes.len() {
        let bytes = closes[i].as_slice();
        match close_one(ledger, format, bytes, steps) {
            Ok(()) => {}
            Err(OneFault::Refused) => return Err(AgainFault::Refused { offset: at }),
            Err(OneFault::NoMemory) => return Err(AgainFault::NoMemory),
        }
        at += 5 + bytes.len() as u64;
        i += 1;
    }
    Ok(())
}
