//! The texts that the program prints.
#![tactic(auto)]

mod closed;
mod path;
mod pieces;
mod reader;
mod refused;
mod sampled;
mod shown;
mod status_line;
mod verified;

pub use closed::{closed_text, end_text, success_count};
pub use path::{path_text, unanswered_text};
pub use reader::reader_text_line;
pub use refused::refused_text;
pub use sampled::sample_text;
pub use shown::shown_text;
pub use status_line::{bad_image_line, bad_input_line, bad_store_line};
pub use verified::{unverified_text, verified_text};
