//! The outcome of a job that was on the board.

ghost use Rattle.std.specs.Prelude.{◌≡◌};

use bucket_merge::MergeOut;
use std::marker::Model;

/// The outcome of a posted job, with the job's number. What a clause sees of it is that job.
#[derive(Drop)]
pub struct PostedOut {
    number: u64,
    out: MergeOut,
}

impl Model for PostedOut {
    ghost use Rattle.merge_board.specs.Posted.{posted_code};
    ghost use Rattle.merge_board.specs.declared.posted.PostedJob.{PostedJob};

    ghost Value = { PostedJob };

    ghost coded = { posted_code };

    ghost view = { λ o. record { number = o.number; job = o.out } };
}

impl PostedOut {
    /// The outcome of the job with this number.
    pub(crate) fn new(number: u64, out: MergeOut) -> PostedOut
        ensures { result ≡ record { number = number; job = out } }
    {
        PostedOut { number, out }
    }

    /// The number of its job: 1 is that of the first job that was posted.
    pub fn number(&self) -> u64
        ensures { result ≡ self.now.number }
    {
        self.number
    }

    /// The outcome without the number.
    pub fn into_out(self) -> MergeOut
        ensures { result ≡ self.job }
    {
        self.out
    }
}
