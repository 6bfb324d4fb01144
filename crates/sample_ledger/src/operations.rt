//! What the accounts do in a record.

ghost use Rattle.std.specs.Prelude.{◌≡◌, ◌∷◌, [], map, IfOk};
ghost use Rattle.std.specs.List.{range_with_len};
ghost use Rattle.sample_ledger.specs.Records as spec;

use crate::accounts::Accounts;
use crate::operation::{
    begin_sponsoring, by, deposit, gift_data, name_domain, note, own, payment, trust_pool,
    trust_usd, usd,
};
use crate::turn::{draw, drawn_turn, issuer_turn};
use item_list::ItemList;
use op_types::{Operation, OperationBody};
use std::alloc::{AllocError, Global};

/// One operation.
fn alone(alloc: Global, operation: Operation) -> Result<ItemList<Operation>, AllocError>
    ensures { IfOk result (λ operations. operations ≡ operation ∷ []) }
{
    let mut operations = ItemList::new(alloc);
    operations.push(operation)?;
    Ok(operations)
}

/// Payments of USD to all other accounts.
fn payments(alloc: Global, accounts: &Accounts) -> Result<ItemList<Operation>, AllocError>
    ensures { IfOk result (λ operations. operations
        ≡ map (λ to. spec.own (spec.payment accounts.now to (spec.usd accounts.now) 1000000000)) (range_with_len 1 8)) }
{
    let mut operations = ItemList::new(alloc);
    for to in 1..9 {
        operations.push(own(payment(accounts, to, usd(accounts), 1_000_000_000)))?;
    }
    Ok(operations)
}

/// Data of account 8 that account 0 pays for.
fn gift(alloc: Global, accounts: &Accounts) -> Result<ItemList<Operation>, AllocError>
    ensures { IfOk result (λ operations. operations ≡ spec.gift accounts.now) }
{
    let mut operations = ItemList::new(alloc);
    operations.push(own(begin_sponsoring(accounts)))?;
    operations.push(by(accounts, 8, gift_data(alloc)?))?;
    operations.push(by(accounts, 8, OperationBody::EndSponsoringFutureReserves))?;
    Ok(operations)
}

/// What account 0 does in a record.
#[tactic(auto, unfolding(crate::specs::Records::issuer_operations))]
fn issuer_operations(
    alloc: Global,
    accounts: &Accounts,
    k: u32,
) -> Result<ItemList<Operation>, AllocError>
    ensures { IfOk result (λ operations. operations ≡ spec.issuer_operations accounts.now k) }
{
    match k {
        1 => alone(alloc, own(name_domain(alloc)?)),
        2 => payments(alloc, accounts),
        3 | 4 => alone(alloc, own(note(alloc, k)?)),
        5 => gift(alloc, accounts),
        _ => alone(alloc, issuer_turn(alloc, accounts, k)?),
    }
}

/// What another account does in a record.
#[tactic(auto, unfolding(crate::specs::Records::other_operation))]
fn other_operation(
    alloc: Global,
    accounts: &Accounts,
    k: u32,
    account: u32,
) -> Result<OperationBody, AllocError>
    ensures { IfOk result (λ body. body ≡ spec.other_operation accounts.now k account) }
{
    if k == 1 {
        Ok(trust_usd(accounts))
    } else if k == 3 {
        Ok(trust_pool(accounts))
    } else if k == 4 && account == 1 {
        deposit(alloc, accounts)
    } else if k <= 5 {
        note(alloc, k)
    } else {
        let v = draw(alloc, accounts, k, account)?;
        Ok(drawn_turn(alloc, accounts, v))
    }
}

/// What an account does in a record.
#[tactic(auto, unfolding(crate::specs::Records::operations_of))]
pub(crate) fn operations_of(
    alloc: Global,
    accounts: &Accounts,
    k: u32,
    account: u32,
) -> Result<ItemList<Operation>, AllocError>
    ensures { IfOk result (λ operations. operations ≡ spec.operations_of accounts.now k account) }
{
    if account == 0 {
        issuer_operations(alloc, accounts, k)
    } else {
        alone(alloc, own(other_operation(alloc, accounts, k, account)?))
    }
}
