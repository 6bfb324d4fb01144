//! How jobs are posted, and how the board is closed.

ghost use Rattle.std.specs.Prelude.{◌≡◌, ◌+◌, ◌≤◌, IfOk, IfErr};
ghost use Rattle.counted_queue.specs.Seats.{mark_of};
ghost use Rattle.merge_board.specs.Parts.{IsBoardIn, IsBoardEndIn, board_parts, board_end_parts, posted_by};
ghost use Rattle.merge_board.specs.Parts.{posted_in_all, returned_to};

use crate::hand::Posts;
use crate::parts::{Board, BoardEnd, Room};
use crate::posted::PostedJob;
use bucket_merge::MergeJob;
use std::sync::{OnceToken, Wait};

/// The number after `posted`. It waits for ever where there is none.
fn next_number<R: Wait>(rt: &R, posted: u64) -> u64
    ensures { result ≡ posted + 1 }
{
    for _ in rt.forever() {
        if let Some(next) = posted.checked_add(1) {
            return next;
        }
    }
    unreachable!()
}

impl Board {
    /// Numbers a job, from 1 on, and puts it after those that wait. It comes back as it was where 64 jobs waited. It
    /// takes no memory.
    pub fn post<R: Wait>(&mut self, rt: &R, room: &Room, job: MergeJob) -> Result<u64, MergeJob>
        requires { IsBoardIn room.now self.old }
        ensures room { IsBoardIn room.now self.new }
        ensures parts { board_parts self.new ≡ board_parts self.old }
        ensures number { IfOk result (λ number. (number ≡ posted_by self.old + 1) × (posted_by self.new ≡ number)) }
        ensures back { IfErr result (λ back. (back ≡ job) × (posted_by self.new ≡ posted_by self.old)) }
        ensures kept { IfOk result (λ _. returned_to self.new ≡ returned_to self.old) }
        ensures returned { IfErr result (λ _. returned_to self.new ≡ returned_to self.old + 1) }
        ensures full { IfErr result (λ _. 64 ≤ posted_by self.old) }
    {
        let next = next_number(rt, self.posted);
        let posted = PostedJob { number: next, job };
        match room.jobs.push::<Posts, R>(rt, &mut self.seat, posted) {
            Ok(()) => {
                self.posted = next;
                Ok(next)
            }
            Err(back) => Err(back.job),
        }
    }

    /// Sets the room's closing mark, and answers what shows that it is set: no more jobs will be posted. It takes no
    /// memory.
    pub fn shut<'r, R: Wait>(self, rt: &R, room: &'r Room) -> (BoardEnd, OnceToken<'r, ()>)
        requires { IsBoardIn room.now self }
        ensures room { IsBoardEndIn room.now result.0 }
        ensures parts { board_end_parts result.0 ≡ board_parts self }
        ensures posted { posted_in_all result.0 ≡ posted_by self }
        ensures mark { result.1.of ≡ mark_of room.now.jobs }
    {
        let Board { seat, posted: _ } = self;
        let mark = room.jobs.close(rt, &seat);
        (BoardEnd { seat }, mark)
    }

    /// Sets the room's closing mark: no more jobs will be posted. It takes no memory.
    pub fn close<R: Wait>(self, rt: &R, room: &Room) -> BoardEnd
        requires { IsBoardIn room.now self }
        ensures room { IsBoardEndIn room.now result }
        ensures parts { board_end_parts result ≡ board_parts self }
        ensures posted { posted_in_all result ≡ posted_by self }
    {
        self.shut(rt, room).0
    }
}
