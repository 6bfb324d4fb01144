//! What `history` writes of closes: the files of an archive, with the records of each close at their ends, behind the
//! hash of the header before them and the number of the first ledger.

ghost use Rattle.std.specs.Prelude.{◌≡◌, ◌++◌};
ghost use Rattle.archive_files.specs.Stating.{stated_file};
ghost use Rattle.run_outcome.specs.run_streams.Seen.{seen};
ghost use Rattle.run_outcome.specs.Closes.{RecordClose};
ghost use Rattle.run_outcome.specs.HistoryRun.{closed_of, history_after, history_file};
ghost use Rattle.reports.specs.Adding.{IsAdded};
ghost use Rattle.reports.specs.Files as file;
ghost use Rattle.reports.specs.Gathering.{IsDetailed};

use crate::files::ClosesFile;
use crate::gather::{Gather, GatherText};
use archive_files::laws::pieces_are_stated;
use archive_files::{AddCloseFault, History, StatedHistory, add_records, file_length, stated_head};
use item_list::ItemList;
use ledger_close::close_laws::closes::{next_is_closing, taken_is_closable};
use ledger_close::close_laws::results::results_are_encoded;
use ledger_close::{DetailedClose, Ledger};
use outside::{Failed, Sink, write_all};
use run_outcome::Status;
use std::alloc::Global;

/// Adds the records of a close that this ledger is about to take to the files.
fn add_close_of(
    alloc: Global,
    history: &mut History,
    before: &Ledger,
    close: &DetailedClose,
) -> Result<(), Status>
    requires { (c : RecordClose) × IsDetailed before.now.state close.now c }
    ensures { (c : RecordClose) → IsDetailed before.now.state close.now c
        → IsAdded history.old (closed_of c) result history.new }
{
    before.is_closing();
    taken_is_closable();
    next_is_closing();
    results_are_encoded();
    let DetailedClose { prepared, set, .. } = close;
    match add_records(alloc, history, prepared.header(), set, prepared.results()) {
        Ok(()) => Ok(()),
        Err(AddCloseFault::TooLarge) => Err(Status::TooLarge),
        Err(AddCloseFault::NoMemory) => Err(Status::NoMemory),
    }
}

/// Writes a file after its length.
fn write_stated_file<O: Sink>(bytes: &[u8], out: &mut O) -> Result<(), Failed>
    ensures { file.IsWritten (stated_file bytes.now) (seen O.taken O.faults out.old out.new) result }
{
    write_all(out, &file_length(bytes))?;
    write_all(out, bytes)
}

/// Writes the three files, each after its length.
fn write_stated_files<O: Sink>(history: &History, out: &mut O) -> Result<(), Failed>
    ensures { file.IsWritten (stated_file history.now.headers
        ++ (stated_file history.now.sets ++ stated_file history.now.results))
        (seen O.taken O.faults out.old out.new) result }
{
    write_stated_file(history.headers.as_slice(), out)?;
    write_stated_file(history.sets.as_slice(), out)?;
    write_stated_file(history.results.as_slice(), out)
}

/// Writes a text and the three files after it.
fn write_pieces<O: Sink>(head: &[u8], history: &History, out: &mut O) -> Result<(), Failed>
    ensures { file.IsWritten (head.now ++ (stated_file history.now.headers
        ++ (stated_file history.now.sets ++ stated_file history.now.results)))
        (seen O.taken O.faults out.old out.new) result }
{
    write_all(out, head)?;
    write_stated_files(history, out)
}

impl Gather for StatedHistory {
    ghost kind = { history_file };

    ghost gathers = { λ h start closes. h ≡ history_after start closes };

    fn gather(
        &mut self,
        alloc: Global,
        ledger: &mut Ledger,
        close: DetailedClose,
    ) -> Result<(), Status> {
        match add_close_of(alloc, &mut self.history, ledger, &close) {
            Ok(()) => {
                let DetailedClose { prepared, .. } = close;
                ledger.install(prepared);
                Ok(())
            }
            Err(end) => Err(end),
        }
    }
}

impl GatherText for StatedHistory {
    fn write<O: Sink>(&self, alloc: Global, out: &mut O) -> Status {
        pieces_are_stated();
        let Ok(head) = stated_head(alloc, &self.before, self.first) else {
            return Status::NoMemory;
        };
        match write_pieces(head.as_slice(), &self.history, out) {
            Ok(()) => Status::Done,
            Err(_) => Status::WriteFault,
        }
    }
}

impl ClosesFile for StatedHistory {
    fn begin(alloc: Global, ledger: &Ledger) -> Self {
        StatedHistory {
            before: ledger.header_hash(),
            first: ledger.header().ledger_seq + 1,
            history: History {
                headers: ItemList::new(alloc),
                sets: ItemList::new(alloc),
                results: ItemList::new(alloc),
            },
        }
    }
}
