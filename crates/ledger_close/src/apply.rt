//! The set of a record, applied to the entries of a ledger.

ghost use Rattle.std.specs.Prelude.{◌≡◌, ◌<◌, ◌≤◌, length};
ghost use Rattle.xdr_header.specs.Records.{close_record};
ghost use Rattle.fee_rules.specs.Turns.{apply_order_of};
ghost use Rattle.close_laws.specs.op_form.Sequences.{last_seq};
ghost use Rattle.close_rules.specs.State.{IsEncoded};
ghost use Rattle.ledger_close.specs.Answers as answer;
ghost use Rattle.ledger_close.specs.Worked as spec;

use crate::ledger::Ledger;
use close_laws::tx_apply::{SetDone, SetFault, Setting, VouchIndex, apply_set_in_order};
use close_rules::CloseFault;
use entry_map::{Batch, Entries, OfferIndex};
use entry_table::stamp_batch;
use xdr_header::CloseRecord;

/// What a set leaves: its results with the fee pool and the ids, what of the entries is another than it was, and the
/// index of the offers after the close.
#[derive(Drop)]
pub(crate) struct Worked {
    pub(crate) done: SetDone,
    pub(crate) offers: OfferIndex,
    pub(crate) batch: Batch,
}

/// The fault of a close whose set isn't applied.
fn fault_of(fault: SetFault) -> CloseFault
    ensures { result ≡ answer.fault_of_set fault }
{
    match fault {
        SetFault::FeeSourceMissing { index } => CloseFault::FeeSourceMissing { index },
        SetFault::NoMemory => CloseFault::NoMemory,
    }
}

impl Ledger {
    /// Applies the set of a record, in its order, to the ledger's entries, which stay as they are.
    pub(crate) fn apply(&self, closing: &CloseRecord, order: &[u32]) -> Result<Worked, CloseFault>
        requires encoded { IsEncoded close_record closing.now }
        requires seq { self.now.state.header.ledger_seq < last_seq }
        requires few { length closing.now.tx_set.txs ≤ 16777216 }
        requires order { order.now ≡ apply_order_of closing.now.tx_set }
        ensures { spec.IsWorked self.now.state closing.now result }
    {
        let alloc = closing.tx_set.txs.allocator();
        let mut entries = Entries::new(alloc, &self.entries)?;
        let vouches = VouchIndex::new(alloc, closing.vouched())?;
        let setting = Setting {
            network: &self.network,
            header: &self.header,
            close_time: closing.scp_value.close_time,
            vouches: &vouches,
        };
        let done = match apply_set_in_order(&mut entries, &setting, &closing.tx_set, order) {
            Ok(done) => done,
            Err(fault) => return Err(fault_of(fault)),
        };
        let mut batch = entries.changes()?;
        let offers = entries.offers()?;
        stamp_batch(self.header.ledger_seq + 1, &mut batch);
        Ok(Worked {
            done,
            offers,
            batch,
        })
    }
}
