//! What one thread sees of a board.

ghost use Rattle.std.specs.Prelude.{◌≡◌, ◌<◌, IfOk, length};
ghost use Rattle.std.specs.List.{AllByRecursion};
ghost use Rattle.merge_board.specs.Parts.{IsBoardIn, IsWorkerOf, IsWorkerEndOf, board_parts};

use crate::jobs::job;
use merge_board::*;
use std::alloc::{AllocError, Global};
use std::marker::Brand;
use std::sync::Wait;
use std::sync::ledger::{Blank, Ledger};
use steps::{OpenGate, Steps};

/// Ends workers that haven't run.
fn finish_all(
    alloc: Global,
    room: &Room,
    mut workers: Vec<Worker>,
) -> Result<Vec<WorkerEnd>, AllocError>
    requires { AllByRecursion (IsWorkerOf room.now) workers.items }
    ensures each { IfOk result (λ ends. AllByRecursion (IsWorkerEndOf room.now) ends.items) }
    ensures count { IfOk result (λ ends. length ends.items ≡ length workers.items) }
{
    let mut ends = Vec::new(alloc);
    while let Some(worker) = workers.pop() {
        ends.push(worker.finish())?;
    }
    Ok(ends)
}

/// One worker of a room whose board was closed at once, and how it is settled.
fn closed_at_once<R: Wait, L: Ledger>(
    rt: &R,
    alloc: Global,
    blank: Blank,
) -> Result<(u64, Settled), AllocError>
    requires name { blank.name ≡ L.name }
    requires parts { blank.parts ≡ L.parts }
    requires some { 0 < L.parts }
{
    let parts = make(alloc, 1)?;
    let Parts {
        room,
        board,
        mut workers,
        collector,
    } = parts;
    let Some(worker) = workers.pop() else {
        return Err(AllocError);
    };
    let mut steps: Steps<L> = Steps::new(blank);
    let board = board.close(rt, &room);
    let end = worker.run(rt, &room, &OpenGate, &mut steps);
    let taken = end.taken;
    let mut ends = Vec::new(alloc);
    ends.push(end)?;
    let settled = room.settle(rt, alloc, board, ends, collector.finish())?;
    Ok((taken, settled))
}

/// The numbers of an account.
pub fn numbers(settled: &Settled) -> [u64; 6] {
    [
        settled.posted,
        settled.taken,
        settled.waiting,
        settled.pushed,
        settled.collected,
        settled.queued.len() as u64,
    ]
}

/// The worker's number of jobs, and the numbers of the account.
fn closed_account<R: Wait>(rt: &R, alloc: Global) -> Result<(u64, [u64; 6]), AllocError> {
    let (taken, settled) = closed_at_once::<R, Brand>(rt, alloc, Blank::new(1))?;
    Ok((taken, numbers(&settled)))
}

#[test]
fn a_closed_board_has_nothing_to_do(rt: HostRuntime) {
    assert!(rt; closed_account(&rt, rt.alloc()).ok() == Some((0, [0; 6])));
}

/// How many of some jobs got the numbers 1, 2, .., and how many came back as they were.
fn post_all<R: Wait>(
    rt: &R,
    alloc: Global,
    room: &Room,
    board: &mut Board,
    jobs: u32,
) -> Result<(u32, u32), AllocError>
    requires { IsBoardIn room.now board.old }
    ensures room { IsBoardIn room.now board.new }
    ensures parts { board_parts board.new ≡ board_parts board.old }
{
    let (mut numbered, mut back) = (0u32, 0u32);
    for seq in 0..jobs {
        match board.post(rt, room, job(alloc, seq)?) {
            Ok(number) => {
                if number == seq as u64 + 1 {
                    numbered = numbered.saturating_add(1);
                }
            }
            Err(job) => {
                if job.seq() == seq {
                    back = back.saturating_add(1);
                }
            }
        }
    }
    Ok((numbered, back))
}

/// What is posted where no worker runs, and how it is settled.
fn posted_to_nobody<R: Wait>(
    rt: &R,
    alloc: Global,
    jobs: u32,
) -> Result<((u32, u32), [u64; 6]), AllocError> {
    let parts = make(alloc, 2)?;
    let Parts {
        room,
        mut board,
        workers,
        collector,
    } = parts;
    let posted = post_all(rt, alloc, &room, &mut board, jobs)?;
    let board = board.close(rt, &room);
    let ends = finish_all(alloc, &room, workers)?;
    let settled = room.settle(rt, alloc, board, ends, collector.finish())?;
    Ok((posted, numbers(&settled)))
}

#[test]
fn sixty_four_jobs_wait(rt: HostRuntime) {
    let account = posted_to_nobody(&rt, rt.alloc(), 65).ok();
    assert!(rt; account == Some(((64, 1), [64, 0, 64, 0, 0, 0])));
}
