//! A ledger that is made from a seed, to try the program on: an image with nine accounts, and records of what they do.
#![tactic(auto)]

mod accounts;
mod entry;
mod envelope;
mod first_file;
mod first_image;
mod laws;
mod operation;
mod operations;
mod record;
mod text;
mod turn;

pub use first_image::image;
pub use laws::records_are_written;
pub use record::make_record;
