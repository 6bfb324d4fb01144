//! The header after a close.

ghost use Rattle.std.specs.Prelude.{◌≡◌, ◌<◌, IfOk, map};
ghost use Rattle.xdr_header.specs.declared.record.CloseRecord.{CloseRecord as ARecord};
ghost use Rattle.value_hashes.specs.xdr_results.Results.{transaction_result_set};
ghost use Rattle.close_laws.specs.op_form.Sequences.{last_seq};
ghost use Rattle.bucket_levels.specs.Hash.{list_hash};
ghost use Rattle.header_chain.specs.Upgrades.{upgrade_in, all_upgraded};
ghost use Rattle.header_chain.specs.SkipList.{finished};
ghost use Rattle.close_rules.specs.Close.{upgraded_header};
ghost use Rattle.ledger_close.specs.Heading as spec;

use crate::ledger::Ledger;
use bucket_levels::LevelStep;
use close_laws::tx_apply::SetDone;
use header_chain::finish;
use ledger_types::{Hash, LedgerHeader, StellarValue};
use std::alloc::{AllocError, Global};
use value_hashes::results_hash;

/// What a close gives a header, beside upgrades and the levels.
#[derive(Drop)]
pub(crate) struct Given {
    previous_ledger_hash: Hash,
    scp_value: StellarValue,
    ledger_seq: u32,
    tx_set_result_hash: Hash,
    fee_pool: i64,
    id_pool: u64,
}

/// Fills a header in.
fn fill(header: &mut LedgerHeader, given: Given)
    ensures { header.new ≡ spec.filled given header.old }
{
    header.previous_ledger_hash = given.previous_ledger_hash;
    header.scp_value = given.scp_value;
    header.ledger_seq = given.ledger_seq;
    header.tx_set_result_hash = given.tx_set_result_hash;
    header.fee_pool = given.fee_pool;
    header.id_pool = given.id_pool;
}

impl Ledger {
    /// The header after a close of a record with this value, from the upgraded header.
    pub(crate) fn head(
        &self,
        alloc: Global,
        mut next: LedgerHeader,
        scp_value: StellarValue,
        done: &SetDone,
        step: &LevelStep,
    ) -> Result<LedgerHeader, AllocError>
        requires seq { self.now.state.header.ledger_seq < last_seq }
        requires results { transaction_result_set.within done.now.results }
        ensures { (closing : ARecord) → scp_value ≡ closing.scp_value
            → next ≡ all_upgraded self.now.state.header (map upgrade_in closing.scp_value.upgrades)
            → spec.IsDone self.now.state closing done.now
            → IfOk result (λ header. header
            ≡ finished (upgraded_header self.now.state closing) (list_hash step.now.pairs)) }
    {
        let given = Given {
            previous_ledger_hash: self.digest,
            scp_value,
            ledger_seq: self.header.ledger_seq + 1,
            tx_set_result_hash: results_hash(alloc, &done.results)?,
            fee_pool: done.fee_pool,
            id_pool: done.id_pool,
        };
        fill(&mut next, given);
        finish(&mut next, step.hash());
        Ok(next)
    }
}
