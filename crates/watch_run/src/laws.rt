//! Laws of what `watch` answers, as contracts.

ghost use Rattle.replay.specs.FileLaws.{IsWritingAnswered, IsWritingComplete, IsWritingDone};
ghost use Rattle.watch_run.specs.WatchLaws as law;

/// What words leave that ask for something is what that leaves, unless memory was refused as they were read; and words
/// that ask for nothing are answered so.
pub fn words_are_watches()
    ensures watches { law.IsByWatch }
    ensures usage { law.IsUsageReported }
{}

/// An input has at most one outcome of `watch`, by the account and the number of readers that are asked for.
pub fn watch_outcomes_are_one()
    ensures { law.WatchOutcomesAreOne }
{}

/// What `watch` answers: where no stream's count of faults rose it is the outcome of its input, with its text and its
/// line, or an allocation failure; so all readers' lines are written where all records close ledgers. Each outcome is
/// answered, but where a count rose or memory was refused.
pub fn watches_are_answered()
    ensures complete { law.Watches IsWritingComplete }
    ensures done { law.Watches IsWritingDone }
    ensures answered { law.Watches IsWritingAnswered }
{}
