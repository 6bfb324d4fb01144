//! What a store opens to as a ledger, and what runs over it leave, as definitions.
#![tactic(auto)]

pub use run_outcome;
pub use run_outcome::close_rules;
pub use sample_ledger;
