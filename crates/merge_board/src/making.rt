//! How a room and its parts are made.

ghost use Rattle.std.specs.Prelude.{◌≡◌, ◌≤◌, ◌+◌, ◌-◌, IfOk, OnOk, length, true};
ghost use Rattle.counted_queue.specs.Seats.{view, IsSeatOf};
ghost use Rattle.merge_board.specs.Hired.{AreHired};
ghost use Rattle.std.specs.List.{AllByRecursion};
ghost use Rattle.merge_board.specs.Parts.{AreParts, AreNumbered, IsWorkerOf, number_of};

use crate::given_up::GivenUp;
use crate::hand::{self, Hand, JobQueue};
use crate::log::{self, Log, OutQueue, Sent};
use crate::parts::{Board, Collector, Parts, Room, Worker, WorkerSeats};
use crate::posted::PostedJob;
use counted_queue::Seat;
use std::alloc::{AllocError, Global};

/// How many jobs, how many outcomes, and how many outcomes of one worker for which there was no slot, may wait.
const CAPACITY: usize = 64;

/// One more worker of the room.
fn hire(
    alloc: Global,
    room: &Room,
    poster: &mut Seat<PostedJob, Hand>,
    gatherer: &mut Seat<Sent, Log>,
    number: u64,
) -> Result<Worker, AllocError>
    requires jobs { IsSeatOf room.now.jobs poster.old }
    requires outs { IsSeatOf room.now.outs gatherer.old }
    requires poster { ((view poster.old).posts ≡ true) × (2 ≤ (view poster.old).parts) }
    requires gatherer { ((view gatherer.old).collects ≡ true) × (2 ≤ (view gatherer.old).parts) }
    requires number { (view gatherer.old).made ≡ number }
    ensures worker { IfOk result (IsWorkerOf room.now) }
    ensures numbered { IfOk result (λ worker. number_of worker ≡ number) }
    ensures jobs { IsSeatOf room.now.jobs poster.new }
    ensures outs { IsSeatOf room.now.outs gatherer.new }
    ensures poster { OnOk result (view poster.new
        ≡ record (view poster.old) { parts = (view poster.old).parts - 1 }) }
    ensures gatherer { OnOk result (view gatherer.new
        ≡ record (view gatherer.old) { parts = (view gatherer.old).parts - 1; made = number + 1 }) }
{
    let left = Vec::with_capacity(alloc, CAPACITY)?;
    let jobs = room.jobs.another::<hand::Hires>(poster);
    let outs = room.outs.another::<log::Hires>(gatherer);
    Ok(Worker {
        seats: WorkerSeats {
            number,
            jobs,
            outs,
            given_up: GivenUp::none(),
        },
        left,
    })
}

/// All workers of the room.
fn hire_all(
    alloc: Global,
    room: &Room,
    poster: &mut Seat<PostedJob, Hand>,
    gatherer: &mut Seat<Sent, Log>,
    workers: u32,
) -> Result<Vec<Worker>, AllocError>
    requires few { workers ≤ 8 }
    requires jobs { IsSeatOf room.now.jobs poster.old }
    requires outs { IsSeatOf room.now.outs gatherer.old }
    requires none { AreHired 0 (view poster.old) (view gatherer.old) }
    ensures jobs { IsSeatOf room.now.jobs poster.new }
    ensures outs { IsSeatOf room.now.outs gatherer.new }
    ensures hired { OnOk result (AreHired workers (view poster.new) (view gatherer.new)) }
    ensures each { IfOk result (λ hired. AllByRecursion (IsWorkerOf room.now) hired.items) }
    ensures numbers { IfOk result (λ hired. AreNumbered 0 hired.items) }
    ensures count { IfOk result (λ hired. length hired.items ≡ workers) }
{
    let mut hired = Vec::with_capacity(alloc, workers as usize)?;
    for number in 0..workers {
        let worker = hire(alloc, room, poster, gatherer, number as u64)?;
        hired.push(worker)?;
    }
    Ok(hired)
}

/// A room with 1 to 8 workers. All memory that its calls need is taken here, but for that of the merges themselves and
/// of the account.
pub fn make(alloc: Global, workers: u32) -> Result<Parts, AllocError>
    requires some { 1 ≤ workers }
    requires few { workers ≤ 8 }
    ensures { IfOk result (AreParts workers) }
{
    let (jobs, mut poster) = JobQueue::new(alloc, CAPACITY)?;
    let (outs, mut gatherer) = OutQueue::new(alloc, CAPACITY)?;
    let room = Room { jobs, outs };
    let workers = hire_all(alloc, &room, &mut poster, &mut gatherer, workers)?;
    Ok(Parts {
        room,
        board: Board {
            seat: poster,
            posted: 0,
        },
        workers,
        collector: Collector { seat: gatherer },
    })
}
