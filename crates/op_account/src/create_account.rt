//! CREATE_ACCOUNT.

ghost use Rattle.std.specs.Prelude.{◌≡◌, ◌≤ℤ◌, ◌<◌, pos, false, IfOk};
ghost use Rattle.entry_slots.specs.Accounts.{HasAccount};
ghost use Rattle.entry_map.specs.EntryMap.{EntryMap as AMap};
ghost use Rattle.sponsor_rules.specs.Adding.{AreReady};
ghost use Rattle.sponsor_rules.specs.Payers.{is_same_account};
ghost use Rattle.op_form.specs.Sequences.{last_seq};
ghost use Rattle.op_form.specs.Done.{Makes};
ghost use Rattle.op_form.specs.Premises.{AccountsAreInRange};
ghost use Rattle.op_account.specs.CreateAccount as spec;

use entry_map::{Base, Entries};
use item_list::ItemList;
use ledger_types::{AccountEntry, LedgerEntry, LedgerEntryBody};
use op_form::{debit_lumens, exists, fault_result, first_seq, settle};
use op_types::{CreateAccountOp, CreateAccountResult, OperationResult, OperationResultTr};
use sponsor_rules::{AddFault, Ctx, add_entry};
use std::alloc::AllocError;

/// CREATE_ACCOUNT: adds an account, for which it or its open sponsor pays, and then the source gives it its lumens.
pub fn create_account<B: Base>(
    op: &CreateAccountOp,
    ctx: &Ctx,
    entries: &mut Entries<'_, B>,
) -> Result<OperationResult, AllocError>
    requires seq { ctx.now.seq < last_seq }
    requires source { HasAccount entries.old.current ctx.now.op_source }
    requires in_range { AccountsAreInRange entries.old.current }
    ensures { IfOk result (λ r.
        Makes r ctx.now entries.old entries.new (spec.create_account ctx.now op.now entries.old.current)) }
{
    if op.starting_balance < 0 || op.destination.0 == ctx.op_source.0 {
        return Ok(answer(CreateAccountResult::Malformed));
    }
    if exists(entries, &op.destination)? {
        return Ok(answer(CreateAccountResult::AlreadyExist));
    }
    add_and_pay(op, ctx, entries)
}

/// What the operation answers.
fn answer(code: CreateAccountResult) -> OperationResult
    ensures { result ≡ spec.answer code }
{
    OperationResult::Inner(OperationResultTr::CreateAccount(code))
}

/// Adds the new account and takes its lumens from the source, or undoes the addition.
fn add_and_pay<B: Base>(
    op: &CreateAccountOp,
    ctx: &Ctx,
    entries: &mut Entries<'_, B>,
) -> Result<OperationResult, AllocError>
    requires seq { ctx.now.seq < last_seq }
    requires amount { pos 0 ≤ℤ op.now.starting_balance }
    requires apart { is_same_account op.now.destination ctx.now.op_source ≡ false }
    requires source { HasAccount entries.old.current ctx.now.op_source }
    requires in_range { AccountsAreInRange entries.old.current }
    ensures { IfOk result (λ r.
        Makes r ctx.now entries.old entries.new (spec.added_and_paid ctx.now op.now entries.old.current)) }
{
    entries.child()?;
    match add_entry(entries, ctx, &op.destination, new_entry(op, ctx)) {
        Ok(()) => {}
        Err(AddFault::NoMemory) => return Err(AllocError),
        Err(fault) => {
            entries.drop_child();
            return Ok(fault_result(fault, answer(CreateAccountResult::LowReserve)));
        }
    }
    let is_paid = debit_lumens(entries, ctx, &ctx.op_source, op.starting_balance)?;
    settle(entries, is_paid)?;
    if is_paid {
        Ok(answer(CreateAccountResult::Success))
    } else {
        Ok(answer(CreateAccountResult::Underfunded))
    }
}

/// The new account's entry.
fn new_entry(op: &CreateAccountOp, ctx: &Ctx) -> LedgerEntry
    requires { ctx.now.seq < last_seq }
    ensures value { result ≡ spec.new_entry ctx.now op.now }
    ensures ready { (m : AMap) → AreReady op.now.destination result.body m }
{
    let alloc = ctx.sponsorships.allocator();
    LedgerEntry {
        last_modified_ledger_seq: ctx.seq + 1,
        body: LedgerEntryBody::Account(AccountEntry {
            account_id: op.destination,
            balance: op.starting_balance,
            seq_num: first_seq(ctx),
            num_sub_entries: 0,
            inflation_dest: None,
            flags: 0,
            home_domain: ItemList::new(alloc),
            thresholds: [1, 0, 0, 0],
            signers: ItemList::new(alloc),
            ext: None,
        }),
        ext: None,
    }
}
