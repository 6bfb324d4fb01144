//! The fees of the transactions of a set.

ghost use Rattle.std.specs.Prelude.{◌≡◌, ◌<◌, ◌≤ℤ◌, ◌+ℤ◌, pos, unsigned_abs, ◌++◌, [], ◌∷◌, length, All, IfOk};
ghost use Rattle.std.specs.Prelude.{OnOk};
ghost use Rattle.ledger_types.specs.declared.asset.Asset.TheVariants as asset;
ghost use Rattle.entry_map.specs.Undo.{with_current};
ghost use Rattle.op_laws.specs.entry_sums.Sums.{total};
ghost use Rattle.reserve_rules.specs.Reserve.{greatest_i64};
ghost use Rattle.op_laws.specs.legal_rules.Supply.{held};
ghost use Rattle.op_laws.specs.Underway.{IsSettled};
ghost use Rattle.tx_apply.specs.Indices.{envelopes_at};
ghost use Rattle.tx_apply.specs.Fees as spec;

use entry_map::{Base, Entries};
use entry_slots::{load_account, store_account};
use fee_rules::{after_fee, fee_charged, fee_source};
use item_list::ItemList;
use ledger_types::LedgerHeader;
use op_laws::steps::transaction_laws;
use op_types::TransactionEnvelope;
use std::alloc::AllocError;

/// Takes the fee that is asked of a transaction, as far as its fee source has that, and answers it, in stroops.
#[tactic(auto, unfolding(entry_slots::specs::Accounts::with_account))]
fn take_fee<B: Base>(
    entries: &mut Entries<'_, B>,
    base_fee: i64,
    envelope: &TransactionEnvelope,
) -> Result<i64, AllocError>
    requires { pos 0 ≤ℤ base_fee }
    ensures fee { IfOk result (λ fee. fee ≡
        spec.fee_of (unsigned_abs base_fee) envelope.now entries.old.current) }
    ensures entries { OnOk result (entries.new ≡ with_current entries.old
        (spec.map_after_fee (unsigned_abs base_fee) envelope.now entries.old.current)) }
{
    let Some(mut slot) = load_account(entries, &fee_source(envelope))? else {
        return Ok(0);
    };
    let fee = fee_charged(base_fee, envelope, slot.account.balance);
    slot.account.balance = after_fee(slot.account.balance, fee);
    store_account(entries, slot)?;
    Ok(fee)
}

/// Takes the fee of a transaction, puts it at the end of a list, and answers it, in stroops.
fn take_next_fee<B: Base>(
    entries: &mut Entries<'_, B>,
    base_fee: i64,
    envelope: &TransactionEnvelope,
    fees: &mut ItemList<i64>,
) -> Result<i64, AllocError>
    requires { pos 0 ≤ℤ base_fee }
    ensures fee { IfOk result (λ fee. fee ≡
        spec.fee_of (unsigned_abs base_fee) envelope.now entries.old.current) }
    ensures entries { OnOk result (entries.new ≡ with_current entries.old
        (spec.map_after_fee (unsigned_abs base_fee) envelope.now entries.old.current)) }
    ensures fees { OnOk result (fees.new ≡ fees.old ++
        spec.fee_of (unsigned_abs base_fee) envelope.now entries.old.current ∷ []) }
{
    let fee = take_fee(entries, base_fee, envelope)?;
    fees.push(fee)?;
    Ok(fee)
}

/// A fee pool with a fee more.
fn more(fee_pool: i64, fee: i64) -> i64
    requires low { pos 0 ≤ℤ fee_pool }
    requires fee { pos 0 ≤ℤ fee }
    requires fits { (fee_pool +ℤ fee) ≤ℤ greatest_i64 }
    ensures { result ≡ fee_pool +ℤ fee }
{
    fee_pool + fee
}

/// Takes the fees of the transactions at indices of a list, each in turn. It puts them at the end of a list, and
/// answers the fee pool after them, in stroops. The header's total of lumens is that of all accounts and the fee pool.
pub(crate) fn take_fees<B: Base>(
    entries: &mut Entries<'_, B>,
    header: &LedgerHeader,
    base_fee: i64,
    envelopes: &[TransactionEnvelope],
    order: &[u32],
    fees: &mut ItemList<i64>,
) -> Result<i64, AllocError>
    requires indices { All (λ index. index < length envelopes.now) order.now }
    requires base_fee { pos 0 ≤ℤ base_fee }
    requires settled { IsSettled header.now.id_pool entries.old.current }
    requires lumens { (total (held asset.Native) entries.old.current +ℤ header.now.fee_pool) ≡ header.now.total_coins }
    requires fee_pool { pos 0 ≤ℤ header.now.fee_pool }
    ensures fees { OnOk result (fees.new ≡ fees.old ++ (spec.fees_taken (unsigned_abs base_fee)
        (envelopes_at envelopes.now order.now) entries.old.current).fees) }
    ensures entries { OnOk result (entries.new ≡ with_current entries.old (spec.fees_taken (unsigned_abs base_fee)
        (envelopes_at envelopes.now order.now) entries.old.current).entries) }
    ensures fee_pool { IfOk result (λ after. after ≡ header.now.fee_pool +ℤ spec.sum_of (spec.fees_taken
        (unsigned_abs base_fee) (envelopes_at envelopes.now order.now) entries.old.current).fees) }
{
    transaction_laws();
    // No fee pool is above the total, which is a number of 64 bits.
    let _total_coins = header.total_coins;
    let mut fee_pool = header.fee_pool;
    let mut i = 0;
    while i < order.len() {
        let fee = take_next_fee(entries, base_fee, &envelopes[order[i] as usize], fees)?;
        fee_pool = more(fee_pool, fee);
        i += 1;
    }
    Ok(fee_pool)
}
