//! CREATE_ACCOUNT, ACCOUNT_MERGE, INFLATION and BUMP_SEQUENCE.
#![tactic(auto)]

mod account_merge;
mod bump_sequence;
mod create_account;
mod inflation;
mod operations;

pub use operations::apply;
