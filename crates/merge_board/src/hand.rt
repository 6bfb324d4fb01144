//! The queue of jobs: what the holder of each of its passes knows, and how a step changes that.

use crate::posted::PostedJob;
use counted_queue::{Closing, CountedQueue};
use crossbeam_queue::protocol::{Join, Lesson, Outcome, Protocol, Split};
use std::collections::LinkedList;

/// What a pass of the job queue knows: its parts of sixteen, of which the board's pass begins with all, whether it
/// posts, how many jobs it posted, those that it took, and how many were taken by the passes that it took in. No value
/// of it is made.
pub struct Hand {
    pub parts: u64,
    pub posts: bool,
    pub posted: u64,
    pub taken: LinkedList<PostedJob>,
    pub absorbed: u64,
}

/// The rule of the job queue.
pub struct JobRule;

impl Protocol<PostedJob, Hand> for JobRule {
    ghost use Rattle.merge_board.specs.Hands.{first_hand};
    ghost use Rattle.merge_board.specs.JobOrder.{JobsInOrder};

    ghost holds = { JobsInOrder };

    ghost first = { first_hand };
}

impl Closing<Hand> for JobRule {
    ghost use Rattle.std.specs.Prelude.{◌≡◌, true};

    ghost may_close = { λ v. v.posts ≡ true };
}

/// A pass for one more worker.
pub struct Hires;

impl Split<Hand> for Hires {
    ghost use Rattle.std.specs.Prelude.{◌-◌};
    ghost use Rattle.merge_board.specs.Hands.{new_hand};

    ghost left = { λ v. record v { parts = v.parts - 1 } };

    ghost right = { λ v. new_hand };
}

/// The pass of a worker that has ended.
pub struct TakesIn;

impl Join<Hand> for TakesIn {
    ghost use Rattle.merge_board.specs.Hands.{hand_with, spent_hand};

    ghost both = { hand_with };

    ghost spent = { spent_hand };
}

/// A job is posted.
pub struct Posts;

impl Outcome<PostedJob, Hand> for Posts {
    ghost use Rattle.std.specs.Prelude.{◌≡◌, ◌+◌};

    ghost then = { λ v job w. w ≡ record v { posted = v.posted + 1 } };
}

impl Lesson<PostedJob, Hand> for Posts {
    ghost use Rattle.std.specs.Prelude.{◌≤◌, length};

    ghost fact = { λ v jobs. length jobs ≤ v.posted };
}

/// A job is taken.
pub struct Takes;

impl Outcome<PostedJob, Hand> for Takes {
    ghost use Rattle.merge_board.specs.Hands.{TakesJob};

    ghost then = { TakesJob };
}

impl Lesson<PostedJob, Hand> for Takes {
    ghost use Rattle.std.specs.Prelude.{⊤};

    ghost fact = { λ v jobs. ⊤ };
}

/// How many jobs were taken, at most.
pub struct Counts;

impl Lesson<PostedJob, Hand> for Counts {
    ghost use Rattle.std.specs.Prelude.{◌≤◌, ◌<◌, ◌^◌};
    ghost use Rattle.merge_board.specs.Hands.{drawn};

    ghost fact = { λ v jobs. (drawn v ≤ v.posted) × (v.posted < 2 ^ 64) };
}

/// What became of all jobs.
pub struct CountsWaiting;

impl Lesson<PostedJob, Hand> for CountsWaiting {
    ghost use Rattle.std.specs.Prelude.{◌≡◌, ◌+◌, ◌<◌, ◌^◌, length};
    ghost use Rattle.merge_board.specs.Hands.{drawn};

    ghost fact = { λ v jobs. (v.posted ≡ drawn v + length jobs) × (v.posted < 2 ^ 64) };
}

/// The jobs that wait for a worker.
pub type JobQueue = CountedQueue<PostedJob, Hand, JobRule>;
