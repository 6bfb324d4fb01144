//! The queue of outcomes: what the holder of each of its passes knows, and how a step changes that.

use crate::posted_out::PostedOut;
use counted_queue::{Closing, CountedQueue};
use crossbeam_queue::protocol::{Join, Lesson, Outcome, Protocol, Split};
use std::collections::LinkedList;

/// An outcome, with the number of the worker that made it.
#[derive(Drop)]
pub struct Sent {
    pub worker: u64,
    pub out: PostedOut,
}

/// What a worker that has ended pushed in all. No value of it is made.
pub struct Known {
    pub worker: u64,
    pub pushed: LinkedList<PostedOut>,
}

/// What a pass of the done queue knows: its parts of sixteen, of which the collector's pass begins with all, whether it
/// collects and whether it pushes, how many workers it made, the number of its own worker, what it pushed, how many
/// were pushed by the passes that it took in, what it collected, and what the workers whose passes it took in had
/// pushed. No value of it is made.
pub struct Log {
    pub parts: u64,
    pub collects: bool,
    pub pushes: bool,
    pub made: u64,
    pub worker: u64,
    pub pushed: LinkedList<PostedOut>,
    pub absorbed: u64,
    pub got: LinkedList<Sent>,
    pub known: LinkedList<Known>,
}

/// The rule of the done queue.
pub struct OutRule;

impl Protocol<Sent, Log> for OutRule {
    ghost use Rattle.merge_board.specs.Logs.{first_log};
    ghost use Rattle.merge_board.specs.OutOrder.{OutsInOrder};

    ghost holds = { OutsInOrder };

    ghost first = { first_log };
}

// Nobody closes it.
impl Closing<Log> for OutRule {
    ghost may_close = { λ v. ⊥ };
}

/// A pass for one more worker.
pub struct Hires;

impl Split<Log> for Hires {
    ghost use Rattle.std.specs.Prelude.{◌+◌, ◌-◌};
    ghost use Rattle.merge_board.specs.Logs.{new_log};

    ghost left = { λ v. record v { parts = v.parts - 1; made = v.made + 1 } };

    ghost right = { λ v. new_log v.made };
}

/// The pass of a worker that has ended.
pub struct TakesIn;

impl Join<Log> for TakesIn {
    ghost use Rattle.merge_board.specs.Logs.{log_with, spent_log};

    ghost both = { log_with };

    ghost spent = { spent_log };
}

/// An outcome is pushed.
pub struct Pushes;

impl Outcome<Sent, Log> for Pushes {
    ghost use Rattle.std.specs.Prelude.{◌≡◌, [], ◌∷◌, ◌++◌};

    ghost then = { λ v sent w. w ≡ record v { pushed = v.pushed ++ sent.out ∷ [] } };
}

impl Lesson<Sent, Log> for Pushes {
    ghost use Rattle.std.specs.Prelude.{⊤};

    ghost fact = { λ v sent. ⊤ };
}

/// An outcome is collected.
pub struct Collects;

impl Outcome<Sent, Log> for Collects {
    ghost use Rattle.std.specs.Prelude.{◌≡◌, [], ◌∷◌, ◌++◌};

    ghost then = { λ v sent w. w ≡ record v { got = v.got ++ sent ∷ [] } };
}

impl Lesson<Sent, Log> for Collects {
    ghost use Rattle.merge_board.specs.OutOrder.{Accounts};

    ghost fact = { Accounts };
}

/// The outcomes that wait for the collector.
pub type OutQueue = CountedQueue<Sent, Log, OutRule>;
