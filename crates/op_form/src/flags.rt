//! What the flags of accounts, of trust lines and of claimable balances say.

ghost use Rattle.std.specs.Prelude.{◌≡◌};
ghost use Rattle.op_form.specs.Flags as spec;

use ledger_types::{AccountEntry, ClaimableBalanceEntry, TrustLineEntry};

/// AUTH_REQUIRED_FLAG of an account.
const AUTH_REQUIRED: u32 = 1;

/// AUTH_REVOCABLE_FLAG of an account.
const AUTH_REVOCABLE: u32 = 2;

/// AUTH_CLAWBACK_ENABLED_FLAG of an account.
const AUTH_CLAWBACK_ENABLED: u32 = 8;

/// AUTHORIZED_FLAG of a trust line.
const AUTHORIZED: u32 = 1;

/// TRUSTLINE_CLAWBACK_ENABLED_FLAG of a trust line.
const TRUSTLINE_CLAWBACK_ENABLED: u32 = 4;

/// Whether new lines in what an account issues aren't authorised.
pub fn is_auth_required(account: &AccountEntry) -> bool
    ensures { result ≡ spec.is_auth_required account.now }
{
    account.flags & AUTH_REQUIRED != 0
}

/// Whether an account may take an authorisation back.
pub fn is_auth_revocable(account: &AccountEntry) -> bool
    ensures { result ≡ spec.is_auth_revocable account.now }
{
    account.flags & AUTH_REVOCABLE != 0
}

/// Whether what an account issues can be taken back.
pub fn is_account_clawback_enabled(account: &AccountEntry) -> bool
    ensures { result ≡ spec.is_account_clawback_enabled account.now }
{
    account.flags & AUTH_CLAWBACK_ENABLED != 0
}

/// Whether a line may give and take.
pub fn is_authorized(line: &TrustLineEntry) -> bool
    ensures { result ≡ spec.is_authorized line.now }
{
    line.flags & AUTHORIZED != 0
}

/// Whether what a line holds can be taken back.
pub fn is_line_clawback_enabled(line: &TrustLineEntry) -> bool
    ensures { result ≡ spec.is_line_clawback_enabled line.now }
{
    line.flags & TRUSTLINE_CLAWBACK_ENABLED != 0
}

/// The flags of a claimable balance; one without the extension has none.
pub fn balance_flags(balance: &ClaimableBalanceEntry) -> u32
    ensures { result ≡ spec.balance_flags balance.now }
{
    match balance.ext {
        None => 0,
        Some(ext) => ext.flags,
    }
}
