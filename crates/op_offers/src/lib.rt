//! MANAGE_SELL_OFFER, CREATE_PASSIVE_SELL_OFFER and MANAGE_BUY_OFFER.
#![tactic(auto)]

mod answers;
mod ask;
mod asked;
mod cross;
mod fault;
mod keep;
pub mod laws;
mod limits;
mod lines;
mod manage;
mod operations;
mod sell;
mod source;
mod wanted;

pub use operations::apply;
