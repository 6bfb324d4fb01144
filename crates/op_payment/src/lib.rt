//! PAYMENT, of lumens and of issued assets, and payments along paths of assets.
#![tactic(auto)]

mod carried;
mod hop_fault;
mod operations;
mod path;
mod path_payment;
mod path_receive;
mod path_send;
mod payment;

pub use carried::Carried;
pub use hop_fault::HopFault;
pub use operations::apply;
pub use path::receive;
