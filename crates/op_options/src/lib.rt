//! SET_OPTIONS and MANAGE_DATA.
#![tactic(auto)]

mod manage_data;
mod operations;
mod option_signer;
mod option_tests;
mod set_options;

pub use operations::apply;
