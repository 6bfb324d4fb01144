//! Claimable balances, and what issuers take back: CREATE_CLAIMABLE_BALANCE, CLAIM_CLAIMABLE_BALANCE, CLAWBACK and
//! CLAWBACK_CLAIMABLE_BALANCE.
#![tactic(auto)]

mod claim_claimable_balance;
mod clawback;
mod clawback_claimable_balance;
mod create_claimable_balance;
mod new_balance;
mod operations;
mod predicates;

pub use operations::apply;
