//! What a record is refused for before its set is applied.

ghost use Rattle.std.specs.Prelude.{◌≡◌, ◌<◌, ◌≤◌, ◌^◌, length};
ghost use Rattle.value_hashes.specs.Hashes.{ledger_hash_of};
ghost use Rattle.fee_rules.specs.SetHash.{hash_of_set};
ghost use Rattle.close_rules.specs.State.{ClosingState, IsEncoded};
ghost use Rattle.xdr_header.specs.Records.{close_record};
ghost use Rattle.close_laws.specs.op_form.Sequences.{last_seq};
ghost use Rattle.close_rules.specs.Refusals as spec;
ghost use Rattle.ledger_close.specs.Answers as answer;

use crate::ledger::Ledger;
use close_rules::{CloseFault, LAST_SEQ};
use fee_rules::{SetOrder, set_order};
use header_chain::{UpgradeFault, apply_upgrades};
use ledger_types::{Hash, LedgerHeader};
use std::alloc::Global;
use xdr_core::{Cursor, ReadFault, XdrFault};
use xdr_header::laws::reading_and_encoding_agree;
use xdr_header::{CloseRecord, read_close_record};

/// The fault of bytes that are no record.
fn bad_xdr(fault: XdrFault) -> CloseFault
    ensures { result ≡ answer.bad_record fault }
{
    CloseFault::BadXdr {
        at: fault.at,
        kind: fault.kind,
    }
}

/// The record that bytes are.
#[tactic(auto, unfolding(close_rules::specs::Refusals::record_in))]
pub(crate) fn read_record(alloc: Global, bytes: &[u8]) -> Result<CloseRecord, CloseFault>
    ensures { answer.IsRead bytes.now result }
{
    reading_and_encoding_agree();
    let mut ahead = Cursor::new(bytes);
    let closing = match read_close_record(alloc, &mut ahead) {
        Ok(closing) => closing,
        Err(ReadFault::Xdr(fault)) => return Err(bad_xdr(fault)),
        Err(ReadFault::NoMemory) => return Err(CloseFault::NoMemory),
    };
    match ahead.end() {
        Ok(()) => Ok(closing),
        Err(fault) => Err(bad_xdr(fault)),
    }
}

/// Whether two hashes are one.
fn is_same_hash(a: &Hash, b: &Hash) -> bool
    ensures { result ≡ spec.is_same_hash a.now b.now }
{
    a.0.as_slice() == b.0.as_slice()
}

/// The first condition on a record's terms that it breaks.
#[tactic(auto, unfolding(close_rules::specs::Refusals::term_fault))]
fn term_fault(
    header: &LedgerHeader,
    digest: &Hash,
    closing: &CloseRecord,
    set_digest: &Hash,
) -> Option<CloseFault>
    requires seq { header.now.ledger_seq ≤ last_seq }
    requires digest { digest.now ≡ ledger_hash_of header.now }
    requires set { set_digest.now ≡ hash_of_set closing.now.tx_set }
    ensures { (s : ClosingState) → s.header ≡ header.now → result ≡ spec.term_fault s closing.now }
{
    if header.ledger_seq == LAST_SEQ {
        return Some(CloseFault::SeqEnd);
    }
    let want = header.ledger_seq + 1;
    let given = closing.ledger_seq;
    if given != want {
        return Some(CloseFault::WrongSeq { want, given });
    }
    let previous = closing.tx_set.previous_ledger_hash;
    if !is_same_hash(&previous, digest) {
        return Some(CloseFault::WrongPrevious {
            have: *digest,
            given: previous,
        });
    }
    let agreed = closing.scp_value.tx_set_hash;
    if !is_same_hash(&agreed, set_digest) {
        return Some(CloseFault::WrongSetHash {
            have: *set_digest,
            given: agreed,
        });
    }
    let last = header.scp_value.close_time;
    let given = closing.scp_value.close_time;
    if given <= last {
        return Some(CloseFault::StaleTime { last, given });
    }
    None
}

/// The upgraded header, or the first upgrade that isn't made.
#[tactic(auto, unfolding(close_rules::specs::Refusals::upgrade_fault))]
fn upgraded(mut next: LedgerHeader, closing: &CloseRecord) -> Result<LedgerHeader, CloseFault>
    requires { length closing.now.scp_value.upgrades < 2 ^ 32 }
    ensures { (s : ClosingState) → s.header ≡ next → answer.IsUpgradedIn s closing.now result }
{
    match apply_upgrades(&mut next, closing.scp_value.upgrades.as_slice()) {
        Ok(()) => Ok(next),
        Err(UpgradeFault::Bad { index }) => Err(CloseFault::BadUpgrade { index }),
        Err(UpgradeFault::OutOfProfile { index }) => {
            Err(CloseFault::UpgradeOutOfProfile { index })
        }
    }
}

/// A record that isn't refused by its terms: the header as its upgrades leave it, and the order in which its
/// transactions are applied.
#[derive(Drop)]
pub(crate) struct Judged {
    pub(crate) next: LedgerHeader,
    pub(crate) order: Vec<u32>,
}

impl Ledger {
    /// What a record that isn't refused by its terms asks for, or what it is refused for by them.
    pub(crate) fn judge_terms(&self, closing: &CloseRecord) -> Result<Judged, CloseFault>
        requires { IsEncoded close_record closing.now }
        ensures { answer.IsJudgedBy self.now.state closing.now result }
    {
        let alloc = closing.tx_set.txs.allocator();
        let SetOrder { set_hash, indices } = set_order(alloc, &closing.tx_set)?;
        if let Some(fault) = term_fault(&self.header, &self.digest, closing, &set_hash) {
            return Err(fault);
        }
        match upgraded(self.header.copy()?, closing) {
            Ok(next) => Ok(Judged {
                next,
                order: indices,
            }),
            Err(fault) => Err(fault),
        }
    }
}
