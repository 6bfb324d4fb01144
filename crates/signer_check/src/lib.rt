//! Which signatures of a transaction count for an account, and what they weigh.
#![tactic(auto)]

mod checker;
mod counting;
mod groups;
mod held;
mod kind;
mod matching;
mod missing;
mod reaching;
mod vouches;

pub use checker::Checker;
pub use held::HeldSignature;
pub use kind::SignerKind;
pub use vouches::VouchIndex;
