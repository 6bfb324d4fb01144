//! What a thread has of a room: a worker, or the board and the collector.

use merge_board::{Board, BoardEnd, Collector, Worker, WorkerEnd};

/// A worker, and then what is left of it.
#[derive(Drop)]
pub struct WorkerSlot {
    pub worker: Option<Worker>,
    pub end: Option<WorkerEnd>,
}

/// The board, and then what is left of it, the collector, how many outcomes it has collected, and how many workers the
/// room has.
#[derive(Drop)]
pub struct ClosingSide {
    pub workers: u32,
    pub board: Option<Board>,
    pub board_end: Option<BoardEnd>,
    pub collector: Collector,
    pub seen: u64,
}
