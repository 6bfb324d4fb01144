//! That an account goes by ACCOUNT_MERGE alone: by operations, by sets and by closes, over their definitions.
#![tactic(auto)]

ghost use Rattle.account_laws.specs.Existing as spec;

pub use close_laws;

/// An operation that isn't ACCOUNT_MERGE keeps each account that existed.
pub fn operations_keep_accounts()
    ensures { spec.OperationsKeepAccounts }
{}

/// A set without ACCOUNT_MERGE keeps each account that existed.
pub fn sets_keep_accounts()
    ensures { spec.SetsKeepAccounts }
{}

/// So does a close.
pub fn closes_keep_accounts()
    ensures { spec.ClosesKeepAccounts }
{}
