//! What both payments along paths test and answer.

ghost use Rattle.std.specs.Prelude.{◌≡◌, IfOk};
ghost use Rattle.op_payment.specs.PathPayment as spec;

use entry_map::{Base, Entries};
use item_list::ItemList;
use ledger_types::{AccountId, Asset, ClaimAtom};
use op_form::{exists, is_issued_by};
use op_types::{PathPaymentSuccess, SimplePaymentResult};
use std::alloc::AllocError;
use valid_values::is_valid_asset;

/// Whether all assets of a list are valid.
fn are_valid(path: &[Asset]) -> bool
    ensures { result ≡ spec.are_valid path.now }
{
    match path.split_first() {
        None => true,
        Some((first, others)) => is_valid_asset(first) && are_valid(others),
    }
}

/// Whether all assets of a path are valid.
pub fn is_path_valid(first: &Asset, path: &[Asset], last: &Asset) -> bool
    ensures { result ≡ spec.is_path_valid first.now path.now last.now }
{
    is_valid_asset(first) && is_valid_asset(last) && are_valid(path)
}

/// Whether there is no account of the destination where one is needed: what is paid to its issuer, without a trade,
/// needs none.
pub fn is_nobody<B: Base>(
    entries: &Entries<'_, B>,
    destination: &AccountId,
    first: &Asset,
    path: &[Asset],
    last: &Asset,
) -> Result<bool, AllocError>
    ensures { IfOk result (λ is.
        is ≡ spec.is_nobody destination.now first.now path.now last.now entries.now.current) }
{
    if is_issued_by(last, destination) && first.is_same(last) && path.is_empty() {
        return Ok(false);
    }
    Ok(!exists(entries, destination)?)
}

/// What was traded, and what arrived.
pub fn arrived(
    atoms: ItemList<ClaimAtom>,
    destination: AccountId,
    asset: &Asset,
    amount: i64,
) -> PathPaymentSuccess
    ensures { result ≡ spec.arrived atoms destination asset.now amount }
{
    PathPaymentSuccess {
        offers: atoms,
        last: SimplePaymentResult {
            destination,
            asset: *asset,
            amount,
        },
    }
}
