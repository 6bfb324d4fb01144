//! What all operations share: results and steps, amounts of any asset given and taken, flags and thresholds.
#![tactic(auto)]

mod amounts;
mod assets;
mod clawback;
mod default_results;
mod existing;
mod faults;
mod flags;
mod levels;
mod lumens;
mod sequences;
mod settling;
mod sponsorships;

pub use amounts::{CreditFault, DebitFault, credit, debit, store_less};
pub use assets::{is_issued_by, is_native, line_asset_of, load_issuer};
pub use clawback::{can_be_clawed_back, flagged_ext};
pub use default_results::default_result;
pub use existing::exists;
pub use faults::fault_result;
pub use flags::{
    balance_flags, is_account_clawback_enabled, is_auth_required, is_auth_revocable, is_authorized,
    is_line_clawback_enabled,
};
pub use levels::{ThresholdLevel, level_of, threshold_at};
pub use lumens::{credit_lumens, debit_lumens};
pub use sequences::first_seq;
pub use settling::settle;
pub use sponsorships::is_open_sponsor;
