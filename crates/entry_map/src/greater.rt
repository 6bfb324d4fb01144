//! An account behind another one in the order of keys.

ghost use Rattle.std.specs.Prelude.{◌≡◌, IfSome};
ghost use Rattle.std.specs.declared.cmp.Ordering.TheVariants.{Less};
ghost use Rattle.ledger_types.specs.KeyOrder.{account_cmp};

use ledger_types::AccountId;

/// An account with a greater id, whose keys come soon behind those of this one: one byte is more by one. None where
/// all bytes are the greatest.
pub fn greater_account(id: &AccountId) -> Option<AccountId>
    ensures { IfSome result (λ other. account_cmp id.now other ≡ Less) }
{
    let mut bytes = id.0;
    for index in (0..bytes.len()).rev() {
        if let Some(byte) = bytes[index].checked_add(1) {
            bytes[index] = byte;
            return Some(AccountId(bytes));
        }
    }
    None
}
