//! How a worker runs, and how one is ended that doesn't.

ghost use Rattle.std.specs.Prelude.{◌≡◌, ◌≤◌, ◌⊎◌, [], vec_len};
ghost use Rattle.merge_board.specs.Parts.{IsWorkerOf, IsWorkerEndOf, number_of, end_number, taken_by, pushed_by};
ghost use Rattle.merge_board.specs.Parts.{given_up_by, refused_of, looks_of, last_looks_of};
ghost use Rattle.merge_board.specs.Work.{HasWorked, EndsFor};

use crate::desk::Desk;
use crate::parts::{Room, Worker, WorkerEnd};
use std::sync::ledger::Ledger;
use std::sync::{OnceToken, Wait};
use steps::{Gate, Steps};

impl Worker {
    /// Works until the board is closed and after that no job waits, or until 64 outcomes found no slot. It answers what
    /// shows that the closing mark was set, if that is why it ended.
    pub fn run_to_end<'r, R: Wait, G: Gate, L: Ledger>(
        self,
        rt: &R,
        room: &'r Room,
        gate: &G,
        steps: &mut Steps<L>,
    ) -> (WorkerEnd, Option<OnceToken<'r, ()>>)
        requires { IsWorkerOf room.now self }
        ensures room { IsWorkerEndOf room.now result.0 }
        ensures number { end_number result.0 ≡ number_of self }
        ensures worked { HasWorked result.0 }
        ensures last { EndsFor room.now result.0 result.1 }
    {
        let Worker { seats, left } = self;
        let mut desk = Desk {
            seats,
            taken: 0,
            pushed: 0,
            left,
        };
        for _ in rt.forever() {
            if let Some(last) = desk.turn(rt, room, gate, steps) {
                return (desk.end(room), last);
            }
        }
        unreachable!()
    }

    /// Takes jobs, passes the gate before each, makes the merges and pushes their outcomes. It ends where the board was
    /// closed and then no job waited, and where 64 outcomes found no slot.
    pub fn run<R: Wait, G: Gate, L: Ledger>(
        self,
        rt: &R,
        room: &Room,
        gate: &G,
        steps: &mut Steps<L>,
    ) -> WorkerEnd
        requires { IsWorkerOf room.now self }
        ensures room { IsWorkerEndOf room.now result }
        ensures number { end_number result ≡ number_of self }
        ensures worked { HasWorked result }
        ensures last { (vec_len result.left ≡ 64) ⊎ (1 ≤ last_looks_of result) }
    {
        self.run_to_end(rt, room, gate, steps).0
    }

    /// Ends a worker that hasn't run. It waits for nobody, and takes no memory.
    pub fn finish(self) -> WorkerEnd
        ensures room { (room : _) → IsWorkerOf room self → IsWorkerEndOf room result }
        ensures number { end_number result ≡ number_of self }
        ensures worked { HasWorked result }
        ensures none { (taken_by result ≡ []) × (pushed_by result ≡ []) × (result.left.items ≡ []) }
        ensures idle { (looks_of result ≡ 0) × (last_looks_of result ≡ 0) }
        ensures nothing { (refused_of result ≡ []) × (given_up_by result ≡ []) }
    {
        let Worker { seats, left } = self;
        WorkerEnd {
            taken: 0,
            pushed: 0,
            given_up: 0,
            left,
            seats,
        }
    }
}
