//! The room and the parts that go with it: each holds its seats at the two queues, and no other is made.

ghost use Rattle.std.specs.Prelude.{◌≡◌, ◌+◌, ◌≤◌, true, [], length, vec_len, vec_capacity};
ghost use Rattle.counted_queue.specs.Seats.{view, capacity_of, empty_looks_of, last_looks_of, refused_of};
ghost use Rattle.merge_board.specs.Hands.{drawn, new_hand};
ghost use Rattle.merge_board.specs.Logs.{pushed_count, new_log};

use crate::given_up::GivenUp;
use crate::hand::{Hand, JobQueue};
use crate::log::{Log, OutQueue, Sent};
use crate::posted::PostedJob;
use crate::posted_out::PostedOut;
use counted_queue::Seat;

/// What `make` gives.
#[derive(Drop)]
pub struct Parts {
    pub room: Room,
    pub board: Board,
    pub workers: Vec<Worker>,
    pub collector: Collector,
}

/// What all threads share: the jobs that wait, with the mark that no more will be posted, and the outcomes that wait.
#[derive(Drop)]
pub struct Room {
    pub(crate) jobs: JobQueue,
    pub(crate) outs: OutQueue,
    ghost job_capacity: { capacity_of jobs ≡ 64 },
    ghost out_capacity: { capacity_of outs ≡ 64 },
}

/// The right to post jobs.
#[derive(Drop)]
pub struct Board {
    pub(crate) seat: Seat<PostedJob, Hand>,
    pub(crate) posted: u64,
    ghost poster: { (view seat).posts ≡ true },
    ghost count: { (view seat).posted ≡ posted },
    ghost took_none: { drawn (view seat) ≡ 0 },
}

/// A board that was closed.
#[derive(Drop)]
pub struct BoardEnd {
    pub(crate) seat: Seat<PostedJob, Hand>,
    ghost poster: { (view seat).posts ≡ true },
    ghost took_none: { drawn (view seat) ≡ 0 },
}

/// A worker's seats at both queues, its number among the workers of its room, and the merges that it gave up.
#[derive(Drop)]
pub(crate) struct WorkerSeats {
    pub(crate) number: u64,
    pub(crate) jobs: Seat<PostedJob, Hand>,
    pub(crate) outs: Seat<Sent, Log>,
    pub(crate) given_up: GivenUp,
}

/// A worker that hasn't run.
#[derive(Drop)]
pub struct Worker {
    pub(crate) seats: WorkerSeats,
    pub(crate) left: Vec<PostedOut>,
    ghost took_none: { view seats.jobs ≡ new_hand },
    ghost pushed_none: { view seats.outs ≡ new_log seats.number },
    ghost none_given_up: { seats.given_up ≡ [] },
    ghost none_left: { left.items ≡ [] },
    ghost never_looked: { empty_looks_of seats.jobs ≡ 0 },
    ghost never_looked_last: { last_looks_of seats.jobs ≡ 0 },
    ghost none_refused: { refused_of seats.outs ≡ [] },
    ghost slots: { 64 ≤ vec_capacity left },
}

/// A worker that has ended: how many jobs it took, how many of their outcomes it pushed, how many jobs were given up
/// because memory was refused, and the outcomes for which there was no slot in the queue.
#[derive(Drop)]
pub struct WorkerEnd {
    pub taken: u64,
    pub pushed: u64,
    pub given_up: u64,
    pub left: Vec<PostedOut>,
    pub(crate) seats: WorkerSeats,
    ghost job_parts: { (view seats.jobs).parts ≡ 1 },
    ghost all_taken: { drawn (view seats.jobs) ≡ taken },
    ghost out_parts: { (view seats.outs).parts ≡ 1 },
    ghost pushes: { (view seats.outs).pushes ≡ true },
    ghost numbered: { (view seats.outs).worker ≡ seats.number },
    ghost all_pushed: { pushed_count (view seats.outs) ≡ pushed },
    ghost all_given_up: { length seats.given_up ≡ given_up },
    ghost accounted: { taken ≡ pushed + given_up + vec_len left },
}

/// The right to collect outcomes.
#[derive(Drop)]
pub struct Collector {
    pub(crate) seat: Seat<Sent, Log>,
    ghost collects: { (view seat).collects ≡ true },
    ghost pushed_none: { pushed_count (view seat) ≡ 0 },
    ghost none_taken_in: { length (view seat).known ≡ 0 },
}

/// A collector that has ended.
#[derive(Drop)]
pub struct CollectorEnd {
    pub(crate) seat: Seat<Sent, Log>,
    ghost collects: { (view seat).collects ≡ true },
    ghost pushed_none: { pushed_count (view seat) ≡ 0 },
    ghost none_taken_in: { length (view seat).known ≡ 0 },
}

/// The account of a room whose ends were all given back, and the outcomes that nobody collected.
#[derive(Drop)]
pub struct Settled {
    /// How many jobs were posted.
    pub posted: u64,
    /// How many of them workers took.
    pub taken: u64,
    /// How many of them no worker took.
    pub waiting: u64,
    /// How many outcomes workers pushed.
    pub pushed: u64,
    /// How many of them were collected.
    pub collected: u64,
    /// Those of them that were not, in their order.
    pub queued: Vec<PostedOut>,
}
