//! Workers beside the thread that posts.

ghost use Rattle.std.specs.Prelude.{◌≡◌, ◌≤◌, ◌<◌, IfOk};
ghost use denote.Param.Send.{IsSync};
ghost use Rattle.std.specs.List.{AllByRecursion};
ghost use Rattle.merge_board.specs.Parts.{IsBoardIn, IsCollectorIn, IsWorkerEndOf, board_parts, collector_parts};
ghost use Rattle.board_tests.specs.WorkerSlots.{IsSlotIn, IsSideOf};

use crate::alone::numbers;
use crate::hold::Hold;
use crate::jobs::job;
use crate::slots::{ClosingSide, WorkerSlot};
use merge_board::*;
use std::alloc::{AllocError, Global};
use std::marker::Brand;
use std::sync::Wait;
use std::sync::ledger::{Blank, Ledger};
use std::thread::{self, Threads, join_mut};
use steps::Steps;

/// The worker of a place runs, and what is left of it stays there.
fn work_on<R: Wait, L: Ledger>(
    rt: &R,
    room: &Room,
    gate: &Hold,
    slot: &mut WorkerSlot,
    blank: Blank,
)
    requires name { blank.name ≡ L.name }
    requires parts { blank.parts ≡ L.parts }
    requires some { 0 < L.parts }
    requires slot { IsSlotIn room.now slot.old }
    ensures { IsSlotIn room.now slot.new }
{
    let mut steps: Steps<L> = Steps::new(blank);
    if let Some(worker) = slot.worker.take() {
        slot.end = Some(worker.run(rt, room, gate, &mut steps));
    }
}

/// The same, with a count of steps of its own.
fn work<R: Wait>(rt: &R, room: &Room, gate: &Hold, slot: &mut WorkerSlot)
    requires { IsSlotIn room.now slot.old }
    ensures { IsSlotIn room.now slot.new }
{
    work_on::<R, Brand>(rt, room, gate, slot, Blank::new(1));
}

/// Two workers run side by side.
fn work_both<R: Threads + Wait + Sync>(
    rt: &R,
    room: &Room,
    gate: &Hold,
    first: &mut WorkerSlot,
    second: &mut WorkerSlot,
)
    requires first { IsSlotIn room.now first.old }
    requires second { IsSlotIn room.now second.old }
    ensures first { IsSlotIn room.now first.new }
    ensures second { IsSlotIn room.now second.new }
{
    join_mut(
        rt,
        &mut ||
            requires { IsSlotIn room.now first.now }
            ensures { IsSlotIn room.entry.now first.exit.now }
        { work(rt, room, gate, first) },
        &mut ||
            requires { IsSlotIn room.now second.now }
            ensures { IsSlotIn room.entry.now second.exit.now }
        { work(rt, room, gate, second) },
    );
}

/// Posts one job, as soon as there is a slot for it.
fn post_one<R: Wait>(rt: &R, alloc: Global, room: &Room, board: &mut Board, seq: u32)
    requires { IsBoardIn room.now board.old }
    ensures room { IsBoardIn room.now board.new }
    ensures parts { board_parts board.new ≡ board_parts board.old }
{
    for _ in rt.forever() {
        let Ok(job) = job(alloc, seq) else {
            break;
        };
        if board.post(rt, room, job).is_ok() {
            break;
        }
        thread::yield_now();
    }
}

/// Posts jobs that began at the ledgers 1, 2, ..
fn post_each<R: Wait>(rt: &R, alloc: Global, room: &Room, board: &mut Board, jobs: u32)
    requires { IsBoardIn room.now board.old }
    ensures room { IsBoardIn room.now board.new }
    ensures parts { board_parts board.new ≡ board_parts board.old }
{
    for seq in 1..=jobs {
        post_one(rt, alloc, room, board, seq);
    }
}

/// How many outcomes wait, each with the number of its job: the job that began at ledger 1 was posted first, and so on.
fn collect_all<R: Wait>(rt: &R, room: &Room, collector: &mut Collector) -> u64
    requires { IsCollectorIn room.now collector.old }
    ensures room { IsCollectorIn room.now collector.new }
    ensures parts { collector_parts collector.new ≡ collector_parts collector.old }
{
    let mut seen = 0u64;
    for _ in rt.forever() {
        let Some(posted) = collector.take(rt, room) else {
            break;
        };
        let number = posted.number();
        if number == posted.into_out().seq() as u64 {
            seen = seen.saturating_add(1);
        }
    }
    seen
}

/// Posts jobs, waits until a worker is held, collects, lets the worker go, and closes the board.
fn serve<R: Wait>(
    rt: &R,
    alloc: Global,
    room: &Room,
    gate: &Hold,
    side: &mut ClosingSide,
    jobs: u32,
    collects: bool,
)
    requires { IsSideOf room.now side.old }
    ensures { IsSideOf room.now side.new }
{
    if let Some(mut board) = side.board.take() {
        post_each(rt, alloc, room, &mut board, jobs);
        gate.await_worker();
        if collects {
            side.seen = collect_all(rt, room, &mut side.collector);
        }
        gate.let_go();
        side.board_end = Some(board.close(rt, room));
    }
}

/// Workers run beside the thread that posts.
fn beside<R: Threads + Wait + Sync>(
    rt: &R,
    alloc: Global,
    room: &Room,
    gate: &Hold,
    first: &mut WorkerSlot,
    second: &mut WorkerSlot,
    side: &mut ClosingSide,
    jobs: u32,
    collects: bool,
)
    requires first { IsSlotIn room.now first.old }
    requires second { IsSlotIn room.now second.old }
    requires side { IsSideOf room.now side.old }
    ensures first { IsSlotIn room.now first.new }
    ensures second { IsSlotIn room.now second.new }
    ensures side { IsSideOf room.now side.new }
{
    join_mut(
        rt,
        &mut ||
            requires { IsSync R.row × IsSlotIn room.now first.now × IsSlotIn room.now second.now }
            ensures { IsSlotIn room.entry.now first.exit.now × IsSlotIn room.entry.now second.exit.now }
        { work_both(rt, room, gate, first, second) },
        &mut ||
            requires { IsSideOf room.now side.now }
            ensures { IsSideOf room.entry.now side.exit.now }
        { serve(rt, alloc, room, gate, side, jobs, collects) },
    );
}

/// What is left of the workers.
fn gather(
    alloc: Global,
    room: &Room,
    first: WorkerSlot,
    second: WorkerSlot,
) -> Result<Vec<WorkerEnd>, AllocError>
    requires first { IsSlotIn room.now first }
    requires second { IsSlotIn room.now second }
    ensures { IfOk result (λ ends. AllByRecursion (IsWorkerEndOf room.now) ends.items) }
{
    let WorkerSlot {
        worker: _,
        end: first,
    } = first;
    let WorkerSlot {
        worker: _,
        end: second,
    } = second;
    let mut ends = Vec::new(alloc);
    if let Some(end) = first {
        ends.push(end)?;
    }
    if let Some(end) = second {
        ends.push(end)?;
    }
    Ok(ends)
}

/// The account of a room, if its board is closed and all its workers have ended.
fn account<R: Wait>(
    rt: &R,
    alloc: Global,
    room: Room,
    side: ClosingSide,
    ends: Vec<WorkerEnd>,
) -> Result<[u64; 6], AllocError>
    requires side { IsSideOf room side }
    requires ends { AllByRecursion (IsWorkerEndOf room) ends.items }
{
    let ClosingSide {
        workers,
        board: _,
        board_end,
        collector,
        seen: _,
    } = side;
    if ends.len() != workers as usize {
        return Err(AllocError);
    }
    let Some(board) = board_end else {
        return Err(AllocError);
    };
    let settled = room.settle(rt, alloc, board, ends, collector.finish())?;
    Ok(numbers(&settled))
}

/// What this many workers, of which one is held before the merge that began at `held`, made of some jobs, and how many
/// outcomes were collected.
fn played<R: Threads + Wait + Sync>(
    rt: &R,
    alloc: Global,
    workers: u32,
    held: u32,
    jobs: u32,
    collects: bool,
) -> Result<([u64; 6], u64), AllocError>
    requires some { 1 ≤ workers }
    requires few { workers ≤ 2 }
{
    let parts = make(alloc, workers)?;
    let Parts {
        room,
        board,
        workers: mut all,
        collector,
    } = parts;
    let mut second = WorkerSlot {
        worker: all.pop(),
        end: None,
    };
    let mut first = WorkerSlot {
        worker: all.pop(),
        end: None,
    };
    let mut side = ClosingSide {
        workers,
        board: Some(board),
        board_end: None,
        collector,
        seen: 0,
    };
    let gate = Hold::new(held);
    beside(
        rt,
        alloc,
        &room,
        &gate,
        &mut first,
        &mut second,
        &mut side,
        jobs,
        collects,
    );
    let seen = side.seen;
    let ends = gather(alloc, &room, first, second)?;
    Ok((account(rt, alloc, room, side, ends)?, seen))
}

#[test]
fn a_worker_leaves_what_finds_no_room(rt: HostRuntime) {
    let account = played(&rt, rt.alloc(), 1, 0, 128, false).ok();
    assert!(rt; account == Some(([128, 128, 0, 64, 0, 64], 0)));
}

#[test]
fn a_gate_holds_a_worker(rt: HostRuntime) {
    let account = played(&rt, rt.alloc(), 1, 2, 3, true).ok();
    assert!(rt; account == Some(([3, 3, 0, 3, 1, 2], 1)));
}

/// Whether two workers take and push ten jobs.
fn ten_jobs_done<R: Threads + Wait + Sync>(rt: &R, alloc: Global) -> bool {
    match played(rt, alloc, 2, 0, 10, true) {
        Ok(done) => {
            let account = done.0;
            let seen = done.1;
            let queued = account[5];
            account[0] == 10
                && account[1] == 10
                && account[2] == 0
                && account[3] == 10
                && account[4] == seen
                && seen <= 10
                && queued == 10 - seen
        }
        Err(_) => false,
    }
}

#[test]
fn two_workers_do_all_jobs_each_time(rt: HostRuntime) {
    let mut done = 0u32;
    for _ in 0..200u32 {
        if ten_jobs_done(&rt, rt.alloc()) {
            done = done.saturating_add(1);
        }
    }
    assert_eq!(rt; done, 200);
}
