//! The two files of a level.

use bucket_core::Bucket;
use std::sync::Arc;

/// The two files of a level.
#[derive(Drop)]
pub struct LevelPair {
    /// Takes changes.
    pub curr: Arc<Bucket>,
    /// Waits to be merged into the level below.
    pub snap: Arc<Bucket>,
}
