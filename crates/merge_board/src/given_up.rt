//! The merges that a worker gave up, since memory was refused to them.

ghost use Rattle.std.specs.Prelude.{◌≡◌, ◌+◌, ◌<◌, ◌^◌, [], ◌∷◌, ◌++◌, length, IfSome, IfNone};

use crate::posted::PostedJob;
use crate::posted_out::PostedOut;
use http_server::Log;
use std::marker::Model;
use std::sync::ledger::Ledger;
use steps::Steps;

/// The merges that were given up, with their number. A merge joins them in `make` alone, where `MergeJob::run` has
/// handed it back: no other call changes them.
#[derive(Drop)]
pub(crate) struct GivenUp {
    count: u64,
    jobs: Log<PostedJob, ()>,
}

impl Model for GivenUp {
    ghost use Rattle.std.specs.Prelude.{◌≡◌, List, length};
    ghost use Rattle.std.specs.Coded.{coded_list};
    ghost use Rattle.counted_queue.specs.Histories.{firsts};
    ghost use Rattle.merge_board.specs.Posted.{posted_code};
    ghost use Rattle.merge_board.specs.declared.posted.PostedJob.{PostedJob};

    ghost Value = { List PostedJob };

    ghost coded = { coded_list posted_code };

    ghost view = { λ g. firsts g.jobs.items };

    ghost invariant = { λ g. length (firsts g.jobs.items) ≡ g.count };
}

impl GivenUp {
    /// None yet.
    pub(crate) fn none() -> GivenUp
        ensures { result ≡ [] }
    {
        GivenUp {
            count: 0,
            jobs: Log::new(),
        }
    }

    /// How many they are.
    pub(crate) fn count(&self) -> u64
        ensures { result ≡ length self.now }
    {
        self.count
    }

    /// Makes a merge, or gives it up where memory is refused to it.
    pub(crate) fn make<L: Ledger>(
        &mut self,
        steps: &mut Steps<L>,
        posted: PostedJob,
    ) -> Option<PostedOut>
        requires { length self.old + 1 < 2 ^ 64 }
        ensures out { IfSome result (λ out. out ≡ posted) }
        ensures kept { IfSome result (λ _. self.new ≡ self.old) }
        ensures given_up { IfNone result (self.new ≡ self.old ++ posted ∷ []) }
    {
        let PostedJob { number, job } = posted;
        match job.run(steps) {
            Ok(out) => Some(PostedOut::new(number, out)),
            Err(back) => {
                self.count += 1;
                let given_up = PostedJob {
                    number,
                    job: back.job,
                };
                self.jobs = self.jobs.and(&given_up, &());
                None
            }
        }
    }
}
