//! How merges that have begun are posted.

ghost use Rattle.std.specs.Prelude.{◌≡◌, ◌+◌, ◌<◌, ◌≤◌, map};
ghost use Rattle.ledger_close.specs.bucket_levels.HandIn.{drawn};
ghost use Rattle.merge_board.specs.Parts.{IsBoardIn, board_parts, posted_by, returned_to};
ghost use Rattle.worker_merges.specs.Posting.{waiting_in, Became};

use bucket_merge::MergeJob;
use ledger_close::Ledger;
use merge_board::{Board, Room};
use std::sync::Wait;

/// Posts a job, and answers how many came back: none, or this one, since 64 waited.
fn post_one<R: Wait>(rt: &R, room: &Room, board: &mut Board, job: MergeJob) -> u32
    requires { IsBoardIn room.now board.old }
    ensures room { IsBoardIn room.now board.new }
    ensures parts { board_parts board.new ≡ board_parts board.old }
    ensures became { Became (posted_by board.old) (posted_by board.new) result }
    ensures returned { returned_to board.new ≡ returned_to board.old + result }
{
    match board.post(rt, room, job) {
        Ok(_) => 0,
        Err(_) => 1,
    }
}

/// Draws the job of each merge that is pending and wasn't drawn, and posts it. It answers how many jobs came back, as
/// 64 waited: they are dropped. It takes no memory.
pub fn post_due<R: Wait>(rt: &R, ledger: &mut Ledger, room: &Room, board: &mut Board) -> u32
    requires { IsBoardIn room.now board.old }
    ensures room { IsBoardIn room.now board.new }
    ensures parts { board_parts board.new ≡ board_parts board.old }
    ensures state { ledger.new.state ≡ ledger.old.state }
    ensures caches { ledger.new.caches ≡ ledger.old.caches }
    ensures drawn { ledger.new.pending ≡ map drawn ledger.old.pending }
    ensures count { posted_by board.old + waiting_in ledger.old.pending ≡ posted_by board.new + result }
    ensures returned { returned_to board.new ≡ returned_to board.old + result }
    ensures full { 0 < result → 64 ≤ posted_by board.new }
{
    let mut back = 0;
    while let Some(job) = ledger.next_job() {
        // Each job is of another level, so that few come back.
        let is_of_a_level = job.level() <= 10;
        prove!(is_of_a_level);
        back += post_one(rt, room, board, job);
    }
    back
}
