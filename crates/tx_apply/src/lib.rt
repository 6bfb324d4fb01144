//! Sets of transactions, applied to the entries of a ledger: fees, checks, signatures and operations
//! (LedgerManagerImpl, TransactionFrame and FeeBumpTransactionFrame in stellar-core).
#![tactic(auto)]

mod any_operation;
mod checks;
mod contexts;
mod envelope;
mod fault;
mod fee_bump;
mod fees;
mod fit;
mod inner_result;
mod laws;
mod operations;
mod preauths;
mod preconditions;
mod running;
mod set;
mod setting;
mod signing;
mod success;
mod transaction;

pub use contexts::ctx_of;
pub use fault::SetFault;
pub use laws::{
    each_conserves, fees_conserve, operations_are_lawful, operations_keep_reserves, sets_conserve,
    transactions_conserve, turns_conserve,
};
pub use op_laws;
pub use set::{SetDone, apply_set, apply_set_in_order};
pub use setting::Setting;
pub use signer_check::VouchIndex;
