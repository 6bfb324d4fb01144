//! What `changes` writes of closes: what each changed of the ledger's entries, in the order of their keys, as records.

ghost use Rattle.std.specs.Prelude.{◌≡◌, ◌++◌, IfOk, OnOk};
ghost use Rattle.archive_files.specs.Encoded.{record_of};
ghost use Rattle.change_stream.specs.Grammar.{one_change};
ghost use Rattle.run_outcome.specs.Closes.{RecordClose};
ghost use Rattle.run_outcome.specs.ChangesRun.{AreChangesIn, IsTextOfChanges, change_records, changes_file};
ghost use Rattle.reports.specs.Gathering.{IsDetailed};
ghost use Rattle.reports.specs.Recording as spec;

use crate::ends::write_last;
use crate::files::ClosesFile;
use crate::gather::{Gather, GatherText};
use change_stream::{Change, changes, write_change};
use ledger_close::close_laws::closes::{next_is_closing, taken_is_closable};
use ledger_close::{DetailedClose, Ledger};
use outside::Sink;
use run_outcome::Status;
use std::alloc::{AllocError, Global};
use xdr_core::Builder;

/// The greatest length that a record mark can state.
const MAX_RECORD_LEN: u32 = 2_147_483_647;

/// The records of the changes of closes, one close after another.
#[derive(Drop)]
pub struct ChangeRecords {
    text: Builder,
}

/// Adds the record of a change at the end of a text.
fn add_change(alloc: Global, text: &mut Builder, change: &Change) -> Result<(), AllocError>
    requires { spec.IsRecordable change.now }
    ensures { OnOk result (text.new ≡ text.old ++ record_of one_change change.now) }
{
    let mut encoding = Builder::new(alloc);
    write_change(change, &mut encoding)?;
    text.mark(encoding.as_slice(), MAX_RECORD_LEN)
}

/// Adds the records of changes at the end of a text.
fn add_changes(alloc: Global, text: &mut Builder, list: &[Change]) -> Result<(), AllocError>
    requires { spec.AreRecordable list.now }
    ensures { OnOk result (text.new ≡ text.old ++ change_records list.now) }
{
    for change in list {
        add_change(alloc, text, change)?;
    }
    Ok(())
}

/// The changes of a close that this ledger is about to take.
fn changes_of(
    alloc: Global,
    before: &Ledger,
    close: &DetailedClose,
) -> Result<Vec<Change>, AllocError>
    requires { (c : RecordClose) × IsDetailed before.now.state close.now c }
    ensures changes { IfOk result (λ changes. (c : RecordClose) → IsDetailed before.now.state close.now c
        → AreChangesIn c changes.items) }
    ensures recordable { IfOk result (λ changes. spec.AreRecordable changes.items) }
{
    before.is_closing();
    taken_is_closable();
    next_is_closing();
    changes(alloc, before, close.prepared.batch())
}

impl Gather for ChangeRecords {
    ghost kind = { changes_file };

    ghost gathers = { λ records start closes. IsTextOfChanges closes records.text };

    fn gather(
        &mut self,
        alloc: Global,
        ledger: &mut Ledger,
        close: DetailedClose,
    ) -> Result<(), Status> {
        let Ok(list) = changes_of(alloc, ledger, &close) else {
            return Err(Status::NoMemory);
        };
        let Ok(()) = add_changes(alloc, &mut self.text, list.as_slice()) else {
            return Err(Status::NoMemory);
        };
        let DetailedClose { prepared, .. } = close;
        ledger.install(prepared);
        Ok(())
    }
}

impl GatherText for ChangeRecords {
    fn write<O: Sink>(&self, alloc: Global, out: &mut O) -> Status {
        let _ = alloc;
        write_last(self.text.as_slice(), Status::Done, out)
    }
}

impl ClosesFile for ChangeRecords {
    fn begin(alloc: Global, _ledger: &Ledger) -> Self {
        ChangeRecords {
            text: Builder::new(alloc),
        }
    }
}
