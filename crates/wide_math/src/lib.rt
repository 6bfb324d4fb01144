//! Exact whole-number arithmetic whose products need more than 64 bits: quotients, square roots, and the order of
//! fractions. No call takes memory.
#![tactic(auto)]

mod fraction;
mod quotient;
mod root;

pub use fraction::frac_cmp;
pub use quotient::{Round, mul_div, scaled_div};
pub use root::isqrt;
