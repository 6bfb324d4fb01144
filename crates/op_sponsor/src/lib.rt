//! BEGIN_SPONSORING_FUTURE_RESERVES, END_SPONSORING_FUTURE_RESERVES and REVOKE_SPONSORSHIP.
#![tactic(auto)]

mod begin_sponsoring_future_reserves;
mod end_sponsoring_future_reserves;
mod operations;
mod revoke_sponsorship;

pub use operations::apply;
