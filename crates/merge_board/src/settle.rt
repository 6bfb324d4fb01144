//! How a room is settled once all its parts have ended.

ghost use Rattle.std.specs.Prelude.{◌≡◌, ◌+◌, ◌<◌, ◌^◌, [], true, length, vec_len, IfOk};
ghost use Rattle.std.specs.List.{AllByRecursion, sum_by};
ghost use Rattle.crossbeam_queue.specs.Fifo.{Held};
ghost use Rattle.counted_queue.specs.Seats.{view, IsSeatOf};
ghost use Rattle.merge_board.specs.Hands.{drawn, hand_with};
ghost use Rattle.merge_board.specs.Logs.{pushed_count, log_with};
ghost use Rattle.merge_board.specs.OutOrder.{Accounts};
ghost use Rattle.merge_board.specs.Parts.{AreEnds, IsWorkerEndOf, posted_in_all, collected_in_all, KeepsOrder};
ghost use Rattle.merge_board.specs.Settling.{AreTakenIn, IsDrained};

use crate::hand::{self, Counts, CountsWaiting, Hand};
use crate::log::{self, Collects, Log, Sent};
use crate::parts::{BoardEnd, CollectorEnd, Room, Settled, WorkerEnd, WorkerSeats};
use crate::posted::PostedJob;
use crate::posted_out::PostedOut;
use counted_queue::Seat;
use std::alloc::{AllocError, Global};
use std::sync::Wait;

impl Room {
    /// Takes in the seats of a worker that has ended.
    fn take_in(&self, hand: &mut Seat<PostedJob, Hand>, log: &mut Seat<Sent, Log>, end: WorkerEnd)
        requires jobs { IsSeatOf self.now.jobs hand.old × ((view hand.old).posts ≡ true) }
        requires outs { IsSeatOf self.now.outs log.old × ((view log.old).collects ≡ true) }
        requires end { IsWorkerEndOf self.now end }
        ensures jobs { IsSeatOf self.now.jobs hand.new }
        ensures outs { IsSeatOf self.now.outs log.new }
        ensures hand { view hand.new ≡ hand_with (view hand.old) (view end.seats.jobs) }
        ensures log { view log.new ≡ log_with (view log.old) (view end.seats.outs) }
        ensures fits { drawn (view hand.new) < 2 ^ 64 }
    {
        let WorkerEnd {
            taken: _,
            pushed: _,
            given_up: _,
            left: _,
            seats,
        } = end;
        let WorkerSeats {
            number: _,
            jobs,
            outs,
            given_up: _,
        } = seats;
        self.jobs.absorb::<hand::TakesIn>(hand, jobs);
        self.jobs.learn::<Counts>(hand);
        self.outs.absorb::<log::TakesIn>(log, outs);
    }

    /// Takes in the seats of all workers, and answers how many jobs they took and how many outcomes they pushed.
    fn take_in_all(
        &self,
        hand: &mut Seat<PostedJob, Hand>,
        log: &mut Seat<Sent, Log>,
        mut ends: Vec<WorkerEnd>,
    ) -> (u64, u64)
        requires jobs { IsSeatOf self.now.jobs hand.old }
        requires outs { IsSeatOf self.now.outs log.old }
        requires ends { AllByRecursion (IsWorkerEndOf self.now) ends.items }
        requires none { AreTakenIn ends.items ends.items (view hand.old) (view hand.old) (view log.old) (view log.old)
            0 0 }
        ensures jobs { IsSeatOf self.now.jobs hand.new }
        ensures outs { IsSeatOf self.now.outs log.new }
        ensures all { AreTakenIn ends.items [] (view hand.old) (view hand.new) (view log.old) (view log.new)
            result.0 result.1 }
    {
        let mut taken = 0;
        let mut pushed = 0;
        while let Some(end) = ends.pop() {
            let (more_taken, more_pushed) = (end.taken, end.pushed);
            self.take_in(hand, log, end);
            taken += more_taken;
            pushed += more_pushed;
        }
        (taken, pushed)
    }

    /// The outcomes that nobody collected.
    fn drain<R: Wait>(
        &self,
        rt: &R,
        alloc: Global,
        log: &mut Seat<Sent, Log>,
    ) -> Result<Vec<PostedOut>, AllocError>
        requires outs { IsSeatOf self.now.outs log.old }
        requires collects { (view log.old).collects ≡ true }
        ensures drained { IfOk result (λ queued. IsDrained (view log.old) (view log.new) queued.items) }
        ensures empty { IfOk result (λ _. Held 0 (Accounts (view log.new))) }
    {
        let mut queued = Vec::new(alloc);
        for _ in rt.forever() {
            match self.outs.pop::<Collects, R>(rt, log) {
                Some(sent) => queued.push(sent.out)?,
                None => return Ok(queued),
            }
        }
        unreachable!()
    }

    /// The account of the room, for all its ends. Where memory is refused, the outcomes that nobody collected are lost.
    pub fn settle<R: Wait>(
        self,
        rt: &R,
        alloc: Global,
        board: BoardEnd,
        workers: Vec<WorkerEnd>,
        collector: CollectorEnd,
    ) -> Result<Settled, AllocError>
        requires { AreEnds self board workers.items collector }

        // what the numbers are
        ensures posted { IfOk result (λ s. s.posted ≡ posted_in_all board) }
        ensures taken { IfOk result (λ s. s.taken ≡ sum_by (λ (end : WorkerEnd). end.taken) workers.items) }
        ensures pushed { IfOk result (λ s. s.pushed ≡ sum_by (λ (end : WorkerEnd). end.pushed) workers.items) }
        ensures collected { IfOk result (λ s. s.collected ≡ length (collected_in_all collector)) }

        // what became of all jobs and outcomes
        ensures all_jobs { IfOk result (λ s. s.posted ≡ s.taken + s.waiting) }
        ensures all_outs { IfOk result (λ s. s.pushed ≡ s.collected + vec_len s.queued) }
        ensures order { IfOk result (λ s. KeepsOrder (collected_in_all collector) s.queued.items workers.items) }
    {
        let BoardEnd { seat: mut hand } = board;
        let CollectorEnd { seat: mut log } = collector;
        let (taken, pushed) = self.take_in_all(&mut hand, &mut log, workers);
        let waiting = self.jobs.len::<CountsWaiting, R>(rt, &mut hand) as u64;
        let queued = self.drain(rt, alloc, &mut log)?;
        Ok(Settled {
            posted: taken + waiting,
            taken,
            waiting,
            pushed,
            collected: pushed - queued.len() as u64,
            queued,
        })
    }
}
