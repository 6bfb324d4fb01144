//! How workers run in their slots.

ghost use denote.Param.Send.{IsSync};
ghost use Rattle.std.specs.Prelude.{◌≡◌, ◌<◌, ◌≤◌, ◌⊎◌, All, length, vec_len};
ghost use Rattle.merge_board.specs.Parts.{IsWorkerOf, IsWorkerEndOf, last_looks_of};
ghost use Rattle.merge_board.specs.Work.{HasWorked};
ghost use Rattle.worker_merges.specs.WorkerSlots.{IsManned, HasEnded};

use crate::slots::WorkerSlot;
use merge_board::{Room, Worker, WorkerEnd};
use std::marker::Brand;
use std::sync::Wait;
use std::sync::ledger::{Blank, Ledger};
use std::thread::{self, Threads};
use steps::{Gate, Steps};

/// How many threads the workers take at most.
const THREADS: usize = 8;

/// A worker runs, with a count of steps of its own.
fn run_counted<R: Wait, G: Gate, L: Ledger>(
    rt: &R,
    room: &Room,
    gate: &G,
    worker: Worker,
    blank: Blank,
) -> WorkerEnd
    requires name { blank.name ≡ L.name }
    requires parts { blank.parts ≡ L.parts }
    requires some { 0 < L.parts }
    requires worker { IsWorkerOf room.now worker }
    ensures room { IsWorkerEndOf room.now result }
    ensures worked { HasWorked result }
    ensures last { (vec_len result.left ≡ 64) ⊎ (1 ≤ last_looks_of result) }
{
    let mut steps: Steps<L> = Steps::new(blank);
    worker.run(rt, room, gate, &mut steps)
}

/// The worker of a slot runs, and what is left of it stays there.
fn work<R: Wait, G: Gate>(rt: &R, room: &Room, gate: &G, slot: &mut WorkerSlot)
    requires { IsManned room.now slot.old }
    ensures { HasEnded room.now slot.new }
{
    let Some(worker) = slot.worker.take() else {
        unreachable!()
    };
    slot.end = Some(run_counted::<R, G, Brand>(rt, room, gate, worker, Blank::new(1)));
}

/// Each worker runs in a thread of its own, until the room's board is closed or it has no slot left for its outcomes.
/// Where a thread can't be started, its worker runs after another one, or when the closing thread is done.
pub fn work_all<R: Threads + Wait + Sync, G: Gate>(
    rt: &R,
    room: &Room,
    gate: &G,
    slots: &mut [WorkerSlot],
)
    requires { All (IsManned room.now) slots.old }
    ensures count { length slots.new ≡ length slots.old }
    ensures ended { All (HasEnded room.now) slots.new }
{
    thread::for_each_mut(
        rt,
        slots,
        THREADS,
        &|_: usize, slot: &mut WorkerSlot|
            requires { IsSync R.row × IsSync G.row × IsManned room.now slot.old }
            ensures { HasEnded room.entry.now slot.new }
        { work(rt, room, gate, slot) },
    );
}
