//! A list of records in a file of a volume that may lose power: each record follows a gate, which is opened once
//! the record is kept.
#![tactic(auto)]

mod append_buf;
mod fault;
mod journal;
pub mod laws;
mod reading;

pub use append_buf::AppendBuf;
pub use fault::StoreFault;
pub use journal::Journal;
pub use reading::{read_bytes, read_exact};
