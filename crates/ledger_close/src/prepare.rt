//! Preparing the close of a record: it is judged and worked out, and the ledger stays as it is.

ghost use Rattle.std.specs.Prelude.{◌≡◌, ◌≤◌, ◌<◌, None, length, map, IfOk};
ghost use Rattle.xdr_header.specs.Records.{close_record};
ghost use Rattle.header_chain.specs.Upgrades.{upgrade_in, all_upgraded};
ghost use Rattle.close_rules.specs.State.{IsEncoded};
ghost use Rattle.close_rules.specs.Refusals.{record_fault};
ghost use Rattle.ledger_close.specs.Answers as answer;
ghost use Rattle.ledger_close.specs.Closing as spec;
ghost use Rattle.ledger_close.specs.Counted.{AreStepsWith, AreSteps};
ghost use Rattle.ledger_close.specs.Worked.{Leaves};
ghost use Rattle.entry_table.specs.entry_changes.Next.{IsExactBatch};

use crate::apply::Worked;
use crate::ledger::Ledger;
use crate::prepared::{DetailedClose, Prepared};
use crate::refusals::{Judged, read_record};
use close_laws::entries::{entries_stay_encodable, next_is_legal};
use close_laws::header::next_header_is_encoded;
use close_laws::results::results_are_encoded;
use close_rules::CloseFault;
use ledger_types::LedgerHeader;
use page_cache::new_caches;
use std::alloc::Global;
use std::sync::ledger::Ledger as Count;
use steps::Steps;
use value_hashes::ledger_hash;
use xdr_header::CloseRecord;

/// The most bytes of the files of a ledger's levels.
const MAX_FILE_TOTAL: u128 = 536870912;

impl Ledger {
    /// Where the ledger takes its memory.
    pub(crate) fn allocator(&self) -> Global {
        self.levels.pair(0).curr.allocator()
    }

    /// The close of a record that isn't refused for what it is, whose set was applied.
    fn finish_close<L: Count>(
        &self,
        next: LedgerHeader,
        closing: CloseRecord,
        worked: Worked,
        steps: &mut Steps<L>,
    ) -> Result<DetailedClose, CloseFault>
        requires encoded { IsEncoded close_record closing }
        requires few { length closing.tx_set.txs ≤ 16777216 }
        requires unrefused { record_fault self.now.state closing ≡ None }
        requires next { next ≡ all_upgraded self.now.state.header (map upgrade_in closing.scp_value.upgrades) }
        requires worked { Leaves self.now.state closing worked }
        ensures finished { spec.IsFinished self.now.state closing (spec.prepared_in result) }
        ensures detail { IfOk result (spec.IsDetailOf self.now.state closing) }
        ensures steps { AreStepsWith self.now closing steps.old steps.new }
    {
        // read, so that the contract can speak of the entire ledger
        let _ = &self.network;
        entries_stay_encodable();
        next_is_legal();
        results_are_encoded();
        next_header_is_encoded();
        let alloc = self.allocator();
        let step = self.level(alloc, next.ledger_version, &worked.batch, steps)?;
        let bytes = step.file_total();
        if bytes > MAX_FILE_TOTAL {
            return Err(CloseFault::LedgerFull { bytes });
        }
        let Worked {
            done,
            offers,
            batch,
        } = worked;
        let entries = self.entries_after(&step, offers, &batch)?;
        let header = self.head(alloc, next, closing.scp_value, &done, &step)?;
        let digest = ledger_hash(alloc, &header)?;
        let caches = new_caches(alloc, header.ledger_seq, step.pairs())?;
        let prepared = Prepared {
            network: self.network,
            results: done.results,
            header,
            digest,
            entries,
            batch,
            step,
            caches,
        };
        Ok(DetailedClose {
            prepared,
            set: closing.tx_set,
        })
    }

    /// The close of a record.
    fn close<L: Count>(
        &self,
        closing: CloseRecord,
        steps: &mut Steps<L>,
    ) -> Result<DetailedClose, CloseFault>
        requires encoded { IsEncoded close_record closing }
        requires few { length closing.tx_set.txs ≤ 16777216 }
        ensures closed { spec.IsClosedBy self.now.state closing (spec.prepared_in result) }
        ensures detail { IfOk result (spec.IsDetailOf self.now.state closing) }
        ensures steps { AreStepsWith self.now closing steps.old steps.new }
    {
        // read, so that the contract can speak of the entire ledger
        let _ = &self.network;
        let Judged { next, order } = match self.judge_terms(&closing) {
            Ok(judged) => judged,
            Err(fault) => return Err(fault),
        };
        let worked = match self.apply(&closing, order.as_slice()) {
            Ok(worked) => worked,
            Err(fault) => return Err(fault),
        };
        self.finish_close(next, closing, worked, steps)
    }

    /// Prepares the close of a record, which are these bytes, at most 16777216, with its set; or the first fault of the
    /// record. The ledger stays as it is. Where levels are merged, the steps rise by at most the items of the files
    /// that are; else they stay.
    pub fn prepare_in_detail<L: Count>(
        &self,
        bytes: &[u8],
        steps: &mut Steps<L>,
    ) -> Result<DetailedClose, CloseFault>
        requires { length bytes.now ≤ 16777216 }
        ensures answers { answer.Answers self.now.state bytes.now (spec.prepared_in result) }
        ensures detail { IfOk result (spec.IsDetail self.now.state bytes.now) }
        ensures steps { AreSteps self.now bytes.now steps.old steps.new }
    {
        let closing = match read_record(self.allocator(), bytes) {
            Ok(closing) => closing,
            Err(fault) => return Err(fault),
        };
        self.close(closing, steps)
    }

    /// Prepares the close of a record, which are these bytes, at most 16777216: its results, the state after it, and
    /// what of the entries is another than it was; or the first fault of the record. The ledger stays as it is. Where
    /// levels are merged, the steps rise by at most the items of the files that are; else they stay.
    pub fn prepare<L: Count>(
        &self,
        bytes: &[u8],
        steps: &mut Steps<L>,
    ) -> Result<Prepared, CloseFault>
        requires { length bytes.now ≤ 16777216 }
        ensures answers { answer.Answers self.now.state bytes.now (spec.close_in result) }
        ensures batch { IfOk result (λ prepared.
            IsExactBatch self.now.state.entries prepared.state.entries prepared.batch) }
        ensures steps { AreSteps self.now bytes.now steps.old steps.new }
    {
        match self.prepare_in_detail(bytes, steps) {
            Ok(close) => Ok(close.prepared),
            Err(fault) => Err(fault),
        }
    }
}
