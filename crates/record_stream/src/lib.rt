//! What comes piece by piece from a source: a start image, and records of closes after it. The source is read no
//! further than the piece at hand needs, but for the rest of the last read.
#![tactic(auto)]

mod ahead;
mod fill;
mod image;
mod layout;
mod measure;
mod piece;

pub use ahead::without_prefix;
pub use image::take_image;
pub use measure::{ImageLength, Measure, RecordLength};
pub use piece::{PieceFault, read_piece};
