//! A worker at work: it takes a job, makes the merge, and hands out its outcome, until there is nothing more to do.

ghost use Rattle.std.specs.Prelude.{◌≡◌, ◌++◌, [], ◌∷◌, ◌<◌, ◌≤◌, IfSome, IfNone, vec_len};
ghost use Rattle.counted_queue.specs.Seats.{view, mark_of, last_looks_of, IsSeatOf};
ghost use Rattle.merge_board.specs.Hands.{TakesJob};
ghost use Rattle.merge_board.specs.Parts.{IsWorkerEndOf, end_number};
ghost use Rattle.merge_board.specs.Work.{IsAtWork, IsDealt, HasInHand, IsHandedOut, StopsFor, HasWorked};

use crate::hand::{Hand, Takes};
use crate::log::{Pushes, Sent};
use crate::parts::{Room, WorkerEnd, WorkerSeats};
use crate::posted::PostedJob;
use crate::posted_out::PostedOut;
use counted_queue::Seat;
use std::sync::ledger::Ledger;
use std::sync::{OnceToken, Wait};
use std::thread;
use steps::{Gate, Steps};

/// How many outcomes a worker may have left, for which there was no slot in the queue.
const LEFT: usize = 64;

/// A worker at work.
pub(crate) struct Desk {
    pub(crate) seats: WorkerSeats,
    pub(crate) taken: u64,
    pub(crate) pushed: u64,
    pub(crate) left: Vec<PostedOut>,
}

/// The job that waited longest, if one waits. A look that finds none is counted, and as a last one too where the
/// closing mark was set before it, as the token shows.
fn look_for_job<R: Wait>(
    rt: &R,
    room: &Room,
    seat: &mut Seat<PostedJob, Hand>,
    closed: &Option<OnceToken<'_, ()>>,
) -> Option<PostedJob>
    requires seat { IsSeatOf room.now.jobs seat.old }
    requires part { 0 < (view seat.old).parts }
    requires closed { IfSome closed.now (λ token. token.of ≡ mark_of room.now.jobs) }
    ensures seat { IsSeatOf room.now.jobs seat.new }
    ensures job { IfSome result (λ job. TakesJob (view seat.old) job (view seat.new)) }
    ensures kept { IfNone result (view seat.new ≡ view seat.old) }
    ensures looked { IfNone result (IfSome closed.now (λ _. 1 ≤ last_looks_of seat.new)) }
{
    match closed {
        Some(token) => room.jobs.pop_after::<Takes, R>(rt, seat, token),
        None => room.jobs.pop::<Takes, R>(rt, seat),
    }
}

impl Desk {
    /// Takes the job that waited longest, if one waits.
    fn take_job<R: Wait>(
        &mut self,
        rt: &R,
        room: &Room,
        closed: &Option<OnceToken<'_, ()>>,
    ) -> Option<PostedJob>
        requires at_work { IsAtWork room.now 0 self.old }
        requires dealt { IsDealt self.old }
        requires closed { IfSome closed.now (λ token. token.of ≡ mark_of room.now.jobs) }
        ensures some { IfSome result (λ _. IsAtWork room.now 1 self.new) }
        ensures in_hand { IfSome result (HasInHand self.new) }
        ensures none { IfNone result (IsAtWork room.now 0 self.new) }
        ensures dealt { IfNone result (IsDealt self.new) }
        ensures looked { IfNone result (IfSome closed.now (λ _. 1 ≤ last_looks_of self.new.seats.jobs)) }
        ensures left { vec_len self.new.left ≡ vec_len self.old.left }
        ensures number { self.new.seats.number ≡ self.old.seats.number }
    {
        let job = look_for_job(rt, room, &mut self.seats.jobs, closed)?;
        self.taken += 1;
        Some(job)
    }

    /// Pushes an outcome, or leaves it where there is no slot for it.
    fn push_out<R: Wait>(&mut self, rt: &R, room: &Room, out: PostedOut)
        requires at_work { IsAtWork room.now 1 self.old }
        requires in_hand { HasInHand self.old out }
        requires index { vec_len self.old.left < 64 }
        ensures at_work { IsAtWork room.now 0 self.new }
        ensures dealt { IsDealt self.new }
        ensures out { IsHandedOut self.old out self.new }
        ensures left { vec_len self.new.left ≤ 64 }
        ensures number { self.new.seats.number ≡ self.old.seats.number }
    {
        let worker = self.seats.number;
        match room
            .outs
            .push::<Pushes, R>(rt, &mut self.seats.outs, Sent { worker, out })
        {
            Ok(()) => self.pushed += 1,
            Err(sent) => self.left.push_reserved(sent.out),
        }
    }

    /// Passes the gate, makes the merge of a job, and pushes its outcome. A merge that memory is refused to is given
    /// up.
    fn make_merge<R: Wait, G: Gate, L: Ledger>(
        &mut self,
        rt: &R,
        room: &Room,
        gate: &G,
        steps: &mut Steps<L>,
        posted: PostedJob,
    )
        requires at_work { IsAtWork room.now 1 self.old }
        requires in_hand { HasInHand self.old posted }
        requires index { vec_len self.old.left < 64 }
        ensures at_work { IsAtWork room.now 0 self.new }
        ensures dealt { IsDealt self.new }
        ensures left { vec_len self.new.left ≤ 64 }
        ensures number { self.new.seats.number ≡ self.old.seats.number }
    {
        // Fewer were given up than were taken.
        let _taken = self.taken;
        gate.pass(posted.job.level(), posted.job.seq());
        match self.seats.given_up.make(steps, posted) {
            Some(out) => self.push_out(rt, room, out),
            None => {}
        }
    }

    /// Does a job, and answers that this was the last one where the worker may leave no more outcomes.
    fn do_job<'r, R: Wait, G: Gate, L: Ledger>(
        &mut self,
        rt: &R,
        room: &'r Room,
        gate: &G,
        steps: &mut Steps<L>,
        posted: PostedJob,
    ) -> Option<Option<OnceToken<'r, ()>>>
        requires at_work { IsAtWork room.now 1 self.old }
        requires in_hand { HasInHand self.old posted }
        requires index { vec_len self.old.left < 64 }
        ensures at_work { IsAtWork room.now 0 self.new }
        ensures dealt { IsDealt self.new }
        ensures more { IfNone result (vec_len self.new.left < 64) }
        ensures last { IfSome result (StopsFor room.now self.new) }
        ensures number { self.new.seats.number ≡ self.old.seats.number }
    {
        self.make_merge(rt, room, gate, steps, posted);
        if self.left.len() < LEFT {
            None
        } else {
            Some(None)
        }
    }

    /// One turn. It is the last one where the worker may leave no more outcomes, and where the closing mark was set, as
    /// the token shows, and after that no job waited.
    pub(crate) fn turn<'r, R: Wait, G: Gate, L: Ledger>(
        &mut self,
        rt: &R,
        room: &'r Room,
        gate: &G,
        steps: &mut Steps<L>,
    ) -> Option<Option<OnceToken<'r, ()>>>
        requires at_work { IsAtWork room.now 0 self.old }
        requires dealt { IsDealt self.old }
        requires index { vec_len self.old.left < 64 }
        ensures at_work { IsAtWork room.now 0 self.new }
        ensures dealt { IsDealt self.new }
        ensures more { IfNone result (vec_len self.new.left < 64) }
        ensures last { IfSome result (StopsFor room.now self.new) }
        ensures number { self.new.seats.number ≡ self.old.seats.number }
    {
        let closed = room.jobs.closed();
        match self.take_job(rt, room, &closed) {
            Some(job) => self.do_job(rt, room, gate, steps, job),
            None => match closed {
                Some(token) => Some(Some(token)),
                None => {
                    thread::yield_now();
                    None
                }
            },
        }
    }

    /// Ends the work.
    pub(crate) fn end(self, room: &Room) -> WorkerEnd
        requires at_work { IsAtWork room.now 0 self }
        requires dealt { IsDealt self }
        ensures room { IsWorkerEndOf room.now result }
        ensures number { end_number result ≡ self.seats.number }
        ensures worked { HasWorked result }
        ensures left { result.left ≡ self.left }
        ensures seats { result.seats ≡ self.seats }
    {
        let Desk {
            seats,
            taken,
            pushed,
            left,
        } = self;
        WorkerEnd {
            taken,
            pushed,
            given_up: seats.given_up.count(),
            left,
            seats,
        }
    }
}
