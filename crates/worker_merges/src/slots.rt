//! The workers in their slots, and the closing thread's side of their room.

ghost use Rattle.std.specs.Prelude.{◌≡◌, ◌≤◌, [], All, IfOk, length, vec_len, vec_capacity};
ghost use Rattle.std.specs.List.{AllByRecursion};
ghost use Rattle.counted_queue.specs.Seats.{mark_of};
ghost use Rattle.merge_board.specs.declared.parts.Room.{Room as RoomOf};
ghost use Rattle.merge_board.specs.Parts.{IsBoardIn, IsWorkerOf, IsWorkerEndOf};
ghost use Rattle.worker_merges.specs.WorkerSlots.{IsManned, HasEnded, IsSideOf, IsSideEndOf, IsWorkshop};

use merge_board::{Board, BoardEnd, Collector, CollectorEnd, Parts, Room, Worker, WorkerEnd, make};
use std::alloc::{AllocError, Global};
use std::sync::{OnceToken, Wait};

/// The slot of a worker: the worker, and then what is left of it.
#[derive(Drop)]
pub struct WorkerSlot {
    pub(crate) worker: Option<Worker>,
    pub(crate) end: Option<WorkerEnd>,
}

/// The closing thread's side of a room: the right to post and the right to collect.
#[derive(Drop)]
pub struct Side {
    pub board: Board,
    pub collector: Collector,
}

/// A side whose board is closed.
#[derive(Drop)]
pub struct SideEnd {
    pub board: BoardEnd,
    pub collector: CollectorEnd,
}

/// A room with its workers in their slots, the closing thread's side of it, and the memory for what will be left of
/// the workers.
#[derive(Drop)]
pub struct Workshop {
    pub room: Room,
    pub side: Side,
    pub slots: Vec<WorkerSlot>,
    pub ends: Vec<WorkerEnd>,
}

impl Side {
    /// Closes the board, and returns what shows that it is closed: no more jobs will be posted, and no more outcomes
    /// collected. It takes no memory.
    pub fn close<'r, R: Wait>(self, rt: &R, room: &'r Room) -> (SideEnd, OnceToken<'r, ()>)
        requires { IsBoardIn room.now self.board }
        ensures ends { (workers : _) → IsSideOf room.now workers self → IsSideEndOf room.now workers result.0 }
        ensures mark { result.1.of ≡ mark_of room.now.jobs }
    {
        let Side { board, collector } = self;
        let (board, mark) = board.shut(rt, room);
        let end = SideEnd {
            board,
            collector: collector.finish(),
        };
        (end, mark)
    }
}

/// Gives each worker its slot.
fn slot_all(alloc: Global, mut hired: Vec<Worker>) -> Result<Vec<WorkerSlot>, AllocError>
    ensures count { IfOk result (λ slots. vec_len slots ≡ vec_len hired) }
    ensures manned { (room : RoomOf) → AllByRecursion (IsWorkerOf room) hired.items
        → IfOk result (λ slots. All (IsManned room) slots.items) }
{
    let mut slots = Vec::with_capacity(alloc, hired.len())?;
    while let Some(worker) = hired.pop() {
        slots.push(WorkerSlot {
            worker: Some(worker),
            end: None,
        })?;
    }
    Ok(slots)
}

/// A room with 1 to 8 workers in their slots. All memory that they, their ends and their settling take is taken here,
/// but for that of the merges and of the account.
pub fn hire(alloc: Global, workers: u32) -> Result<Workshop, AllocError>
    requires some { 1 ≤ workers }
    requires few { workers ≤ 8 }
    ensures { IfOk result (IsWorkshop workers) }
{
    let parts = make(alloc, workers)?;
    let Parts {
        room,
        board,
        workers: hired,
        collector,
    } = parts;
    let slots = slot_all(alloc, hired)?;
    let ends = Vec::with_capacity(alloc, workers as usize)?;
    Ok(Workshop {
        room,
        side: Side { board, collector },
        slots,
        ends,
    })
}

/// What is left of a worker, from its slot.
fn end_of(slot: WorkerSlot) -> WorkerEnd
    requires { (room : RoomOf) × HasEnded room slot }
    ensures { (room : RoomOf) → HasEnded room slot → IsWorkerEndOf room result }
{
    let WorkerSlot { worker: _, end } = slot;
    let Some(end) = end else { unreachable!() };
    end
}

/// What is left of workers that have ended. It takes no memory.
pub fn gather(mut slots: Vec<WorkerSlot>, mut ends: Vec<WorkerEnd>) -> Vec<WorkerEnd>
    requires none { ends.items ≡ [] }
    requires memory { vec_len slots ≤ vec_capacity ends }
    requires ended { (room : RoomOf) × All (HasEnded room) slots.items }
    ensures count { vec_len result ≡ vec_len slots }
    ensures each { (room : RoomOf) → All (HasEnded room) slots.items
        → AllByRecursion (IsWorkerEndOf room) result.items }
{
    while let Some(slot) = slots.pop() {
        ends.push_reserved(end_of(slot));
    }
    ends
}
