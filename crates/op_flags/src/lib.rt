//! ALLOW_TRUST and SET_TRUST_LINE_FLAGS: what issuers let others do with what they issue, and what becomes of the
//! offers and pool shares of a line that is no longer authorised.
#![tactic(auto)]

mod allow_trust;
mod left_balance;
mod line_flags;
mod operations;
mod revoked_shares;
mod revoker;
mod revoking;
mod set_trust_line_flags;

pub use operations::apply;
