//! A complete set.

ghost use Rattle.std.specs.Prelude.{◌≡◌, ◌*◌, ◌<◌, ◌≤◌, ◌≤ℤ◌, ◌+ℤ◌, pos, ◌++◌, length, All, IfOk, OnOk};
ghost use Rattle.ledger_types.specs.declared.asset.Asset.TheVariants as asset;
ghost use Rattle.entry_map.specs.Undo.{with_current};
ghost use Rattle.op_laws.specs.entry_sums.Sums.{total};
ghost use Rattle.fee_rules.specs.Turns.{apply_order_of};
ghost use Rattle.op_laws.specs.legal_rules.Supply.{held};
ghost use Rattle.xdr_tx.specs.Transactions as xdr;
ghost use Rattle.op_laws.specs.legal_rules.Legal.{IsLegal};
ghost use Rattle.op_form.specs.Sequences.{last_seq};
ghost use Rattle.op_laws.specs.Underway.{IsSettled};
ghost use Rattle.tx_apply.specs.Laws as laws;
ghost use Rattle.tx_apply.specs.EachTransaction.{AreEachConserved};
ghost use Rattle.tx_apply.specs.Indices.{envelopes_at};
ghost use Rattle.tx_apply.specs.Set as spec;

use crate::envelope::apply_one;
use crate::fault::SetFault;
use crate::fees::take_fees;
use crate::fit::all_numbers_fit;
use crate::setting::Setting;
use entry_map::{Base, Entries};
use fee_rules::{apply_order, fee_source, set_base_fee};
use item_list::ItemList;
use ledger_types::{Hash, LedgerHeader};
use op_form::exists;
use op_laws::steps::{legal_settles, transaction_laws};
use op_types::{
    TransactionEnvelope, TransactionResultPair, TransactionResultSet, TransactionSet, Vouch,
};
use signer_check::VouchIndex;
use std::alloc::AllocError;

/// What a set leaves beside the entries.
#[derive(Drop)]
pub struct SetDone {
    /// In the order in which the transactions were applied.
    pub results: TransactionResultSet,
    /// The header's fee pool and all fees, in stroops.
    pub fee_pool: i64,
    /// The greatest offer id so far.
    pub id_pool: u64,
}

/// The first of these indices at which there is a transaction whose fee source has no account.
fn missing_among<B: Base>(
    entries: &Entries<'_, B>,
    envelopes: &[TransactionEnvelope],
    indices: &[u32],
) -> Result<Option<u32>, AllocError>
    requires { All (λ index. index < length envelopes.now) indices.now }
    ensures { IfOk result (λ index. index ≡ spec.missing_among entries.now.current envelopes.now indices.now) }
{
    for index in indices {
        if !exists(entries, &fee_source(&envelopes[*index as usize]))? {
            return Ok(Some(*index));
        }
    }
    Ok(None)
}

/// Applies the transactions at indices of a list, each in turn, with its fee. It puts their results at the end of a
/// list, and answers the greatest offer id then.
fn apply_all<B: Base>(
    setting: &Setting<'_>,
    envelopes: &[TransactionEnvelope],
    order: &[u32],
    fees: &[i64],
    entries: &mut Entries<'_, B>,
    results: &mut ItemList<TransactionResultPair>,
) -> Result<u64, AllocError>
    requires settled { IsSettled setting.now.header.now.id_pool entries.old.current }
    requires seq { setting.now.header.now.ledger_seq < last_seq }
    requires within { All (λ envelope. xdr.transaction_envelope.within envelope) envelopes.now }
    requires indices { All (λ index. index < length envelopes.now) order.now }
    requires fit { laws.AreAllFit envelopes.now }
    requires fees { length fees.now ≡ length order.now }
    requires ids { laws.CanDraw (100 * length order.now) setting.now.header.now.id_pool }
    ensures results { OnOk result (results.new ≡ results.old ++ (spec.all_applied
        (spec.setting_of setting.now) setting.now.header.now.id_pool
        (envelopes_at envelopes.now order.now) fees.now entries.old.current).results) }
    ensures entries { OnOk result (entries.new ≡ with_current entries.old (spec.all_applied
        (spec.setting_of setting.now) setting.now.header.now.id_pool
        (envelopes_at envelopes.now order.now) fees.now entries.old.current).entries) }
    ensures id_pool { IfOk result (λ after. after ≡ (spec.all_applied
        (spec.setting_of setting.now) setting.now.header.now.id_pool
        (envelopes_at envelopes.now order.now) fees.now entries.old.current).id_pool) }
{
    transaction_laws();
    let mut id_pool = setting.header.id_pool;
    let mut i = 0;
    while i < order.len() {
        let envelope = &envelopes[order[i] as usize];
        id_pool = apply_one(setting, id_pool, envelope, fees[i], entries, results)?;
        i += 1;
    }
    Ok(id_pool)
}

/// Takes the fees of a set, and applies its transactions.
fn apply_in_order<B: Base>(
    entries: &mut Entries<'_, B>,
    setting: &Setting<'_>,
    set: &TransactionSet,
    order: &[u32],
) -> Result<SetDone, AllocError>
    requires settled { IsSettled setting.now.header.now.id_pool entries.old.current }
    requires lumens { (total (held asset.Native) entries.old.current +ℤ setting.now.header.now.fee_pool)
        ≡ setting.now.header.now.total_coins }
    requires fee_pool { pos 0 ≤ℤ setting.now.header.now.fee_pool }
    requires seq { setting.now.header.now.ledger_seq < last_seq }
    requires within { xdr.transaction_set.within set.now }
    requires fit { laws.AreAllFit set.now.txs }
    requires ids { laws.CanDraw (100 * length order.now) setting.now.header.now.id_pool }
    requires order { order.now ≡ apply_order_of set.now }
    requires indices { All (λ index. index < length set.now.txs) order.now }
    ensures { IfOk result (λ done. spec.IsApplied (spec.setting_of setting.now) set.now
        entries.old entries.new done) }
{
    transaction_laws();
    let alloc = set.txs.allocator();
    let envelopes = set.txs.as_slice();
    let base_fee = set_base_fee(setting.header, set);
    let mut fees = ItemList::new(alloc);
    let fee_pool = take_fees(
        entries,
        setting.header,
        base_fee,
        envelopes,
        order,
        &mut fees,
    )?;
    let mut results = ItemList::new(alloc);
    let id_pool = apply_all(
        setting,
        envelopes,
        order,
        fees.as_slice(),
        entries,
        &mut results,
    )?;
    Ok(SetDone {
        results: TransactionResultSet { results },
        fee_pool,
        id_pool,
    })
}

/// Applies a set to the entries of the ledger before: all fees are taken first, and then the transactions are applied,
/// both in the order of application (LedgerManagerImpl in stellar-core), which is `order`. A set that is refused leaves
/// the entries. The ids of offers fit, since a set has few transactions.
pub fn apply_set_in_order<B: Base>(
    entries: &mut Entries<'_, B>,
    setting: &Setting<'_>,
    set: &TransactionSet,
    order: &[u32],
) -> Result<SetDone, SetFault>
    requires legal { IsLegal setting.now.header.now entries.old.current }
    requires seq { setting.now.header.now.ledger_seq < last_seq }
    requires within { xdr.transaction_set.within set.now }
    requires few { length set.now.txs ≤ 16777216 }
    requires order { order.now ≡ apply_order_of set.now }
    ensures answer { spec.IsAnswer (spec.setting_of setting.now) set.now entries.old entries.new
        result }
    ensures conserved { OnOk result (
        laws.IsConserved (spec.setting_of setting.now) set.now entries.old.current) }
    ensures each { OnOk result (
        AreEachConserved (spec.setting_of setting.now) set.now entries.old.current) }
    ensures lawful { OnOk result (
        laws.AreLawful (spec.set_done (spec.setting_of setting.now) set.now
        entries.old.current).steps) }
{
    legal_settles();
    transaction_laws();
    let envelopes = set.txs.as_slice();
    all_numbers_fit(envelopes);
    if let Some(index) = missing_among(entries, envelopes, order)? {
        return Err(SetFault::FeeSourceMissing { index });
    }
    Ok(apply_in_order(entries, setting, set, order)?)
}

/// Applies a set to the entries of the ledger before, as `apply_set_in_order` does, in the order that it finds.
/// `header` is that of the ledger before, and `close_time` that of the set's value, in seconds since
/// 1970-01-01T00:00:00Z.
pub fn apply_set<B: Base>(
    entries: &mut Entries<'_, B>,
    header: &LedgerHeader,
    close_time: u64,
    network: &Hash,
    set: &TransactionSet,
    vouches: &[Vouch],
) -> Result<SetDone, SetFault>
    requires legal { IsLegal header.now entries.old.current }
    requires seq { header.now.ledger_seq < last_seq }
    requires within { xdr.transaction_set.within set.now }
    requires few { length set.now.txs ≤ 16777216 }
    ensures answer { spec.IsAnswer (record {
      network = network.now;
      header = header.now;
      close_time = close_time;
      vouches = vouches.now;
    }) set.now entries.old entries.new result }
    ensures conserved { OnOk result (
        laws.IsConserved (record {
          network = network.now;
          header = header.now;
          close_time = close_time;
          vouches = vouches.now;
        }) set.now entries.old.current) }
    ensures each { OnOk result (
        AreEachConserved (record {
          network = network.now;
          header = header.now;
          close_time = close_time;
          vouches = vouches.now;
        }) set.now entries.old.current) }
    ensures lawful { OnOk result (
        laws.AreLawful (spec.set_done (record {
          network = network.now;
          header = header.now;
          close_time = close_time;
          vouches = vouches.now;
        }) set.now entries.old.current).steps) }
{
    let alloc = set.txs.allocator();
    let vouches = VouchIndex::new(alloc, vouches)?;
    let setting = Setting {
        network,
        header,
        close_time,
        vouches: &vouches,
    };
    let order = apply_order(alloc, set)?;
    apply_set_in_order(entries, &setting, set, order.as_slice())
}
