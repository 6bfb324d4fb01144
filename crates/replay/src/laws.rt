//! Laws of runs of the program, as contracts.

ghost use Rattle.replay.specs.Outcomes as outcome;
ghost use Rattle.replay.specs.Completeness as entire;
ghost use Rattle.replay.specs.Machine as machine;
ghost use Rattle.replay.specs.PossibleEvents as possible;
ghost use Rattle.replay.specs.LedgerEvents as ledger;
ghost use Rattle.replay.specs.StoredLaws as stored;
ghost use Rattle.replay.specs.CommandLaws as command;
ghost use Rattle.replay.specs.VerifyLaws as verify;
ghost use Rattle.replay.specs.PathLaws as query;
ghost use Rattle.replay.specs.FileLaws as file;
ghost use Rattle.stored_outcome.specs.run_streams.SeenVolume.{seen_volume};
ghost use Rattle.stored_outcome.specs.run_outcome.HistoryRun.{history_file};
ghost use Rattle.stored_outcome.specs.run_outcome.ChangesRun.{changes_file};

use outside::Volume;
use reports::answers_are_one;
use sample_laws::samples_go_on;

/// What the records after a state yield is one thing.
pub fn runs_are_one()
    ensures { outcome.RunsAreOne }
{}

/// What records yield that all close ledgers, with others after them: the lines of the first, and what the others
/// yield from the state after those.
pub fn runs_go_on()
    ensures { outcome.RunsGoOn }
{}

/// An input has at most one outcome on a network.
pub fn outcomes_are_one()
    ensures { outcome.OutcomesAreOne }
{}

/// What a run wrote that was cut short is a prefix of the text of its input's outcome, or of that of the records
/// after the ledger that it opened.
pub fn prefixes_are_of_outcomes()
    ensures runs { outcome.PrefixesAreOfRuns }
    ensures prefixes { outcome.PrefixesAreOfOutcomes }
    ensures outputs { outcome.OutputsArePrefixes }
{}

/// Where no stream's count of faults rose, a run of `catchup` answers the outcome of its input and writes its text,
/// or runs out of memory. It is run alone, or by the words beside this volume.
pub fn runs_are_complete<V: Volume>(old: &V, new: &V)
    ensures catchups { entire.Catchups entire.IsComplete }
    ensures runs { entire.Runs (seen_volume V.reports V.disk V.faults old.now new.now) entire.IsComplete }
{}

/// On a legal image and records that all close ledgers, a run of `catchup` of which no stream's count of faults rose
/// answers that all is done, and writes all lines, or runs out of memory.
pub fn accepted_runs_are_done<V: Volume>(old: &V, new: &V)
    ensures catchups { entire.Catchups entire.IsDone }
    ensures runs { entire.Runs (seen_volume V.reports V.disk V.faults old.now new.now) entire.IsDone }
{}

/// Where an input has an outcome, its status is the answer, or a count of faults rose, or memory was refused.
pub fn outcomes_are_answered<V: Volume>(old: &V, new: &V)
    ensures catchups { entire.Catchups entire.IsAnswered }
    ensures runs { entire.Runs (seen_volume V.reports V.disk V.faults old.now new.now) entire.IsAnswered }
{}

// ---- over a store

/// What `run` answers on a volume that opens. Where no count of faults rose, it is what the records yield, with its
/// text, or an allocation failure; so all is done where all records close ledgers. Else a count rose that explains the
/// answer.
pub fn stored_runs_are_answered<V: Volume>(old: &V, new: &V)
    ensures complete { stored.StoredRuns (seen_volume V.reports V.disk V.faults old.now new.now)
        (stored.IsRunComplete (seen_volume V.reports V.disk V.faults old.now new.now)) }
    ensures done { stored.StoredRuns (seen_volume V.reports V.disk V.faults old.now new.now)
        (stored.IsRunDone (seen_volume V.reports V.disk V.faults old.now new.now)) }
    ensures answered { stored.StoredRuns (seen_volume V.reports V.disk V.faults old.now new.now)
        (stored.IsRunAnswered (seen_volume V.reports V.disk V.faults old.now new.now)) }
{}

/// What `init` answers to its input, unless a count of faults rose or memory was refused: where the input is no image,
/// or which rule the image breaks; and to a volume that reports its bytes, that the image is stored or another is open.
pub fn inits_are_answered<V: Volume>(old: &V, new: &V)
    ensures bad_input { stored.Inits (seen_volume V.reports V.disk V.faults old.now new.now)
        stored.IsBadInputAnswered }
    ensures bad_image { stored.Inits (seen_volume V.reports V.disk V.faults old.now new.now)
        stored.IsBadImageAnswered }
    ensures image { stored.Inits (seen_volume V.reports V.disk V.faults old.now new.now)
        (stored.IsImageAnswered (seen_volume V.reports V.disk V.faults old.now new.now)) }
{}

/// What a volume opens to is one ledger, one fault at a file and offset, or that there is no store.
pub fn openings_are_one()
    ensures { stored.OpeningsAreOne }
{}

/// As many ledgers are acknowledged as complete `closed` lines were printed.
pub fn acknowledged_are_counted()
    ensures { stored.AcknowledgedAreCounted }
{}

/// A volume that is opened again after a crash, and reads what that left, is sound where the one before was. So is one
/// that reads what a crash left at some moment of a run.
pub fn reopened_volumes_are_sound<V: Volume>(old: &V, new: &V, again: &V)
    ensures now { stored.IsSoundAgain (V.disk old.now) (V.disk again.now) }
    ensures moments { stored.IsSoundInRun (seen_volume V.reports V.disk V.faults old.now new.now) (V.disk again.now) }
{}

// ---- by words

/// What words leave that are a command is what the command leaves, unless memory was refused as they were read;
/// and words that are no command are answered so.
pub fn words_are_commands<V: Volume>(old: &V, new: &V)
    ensures commands { command.IsByCommand (seen_volume V.reports V.disk V.faults old.now new.now) }
    ensures usage { command.IsUsageReported (seen_volume V.reports V.disk V.faults old.now new.now) }
{}

/// What `show` answers on a volume that opens: its four lines, unless a count of faults rose or memory was refused. On
/// one that doesn't open it answers why.
pub fn shows_are_answered<V: Volume>(old: &V, new: &V)
    ensures complete { command.Showings (seen_volume V.reports V.disk V.faults old.now new.now)
        (command.IsShowComplete (seen_volume V.reports V.disk V.faults old.now new.now)) }
    ensures answered { command.Showings (seen_volume V.reports V.disk V.faults old.now new.now)
        (command.IsShowAnswered (seen_volume V.reports V.disk V.faults old.now new.now)) }
    ensures unopened { command.IsUnopenedShown (seen_volume V.reports V.disk V.faults old.now new.now) }
{}

/// What `path` answers on a volume that opens: the one answer of its ledger to the input, unless a count of faults rose
/// or memory was refused; so what the ledger finds, where nothing is wrong with the query. On one that doesn't open it
/// answers why.
pub fn paths_are_answered<V: Volume>(old: &V, new: &V)
    ensures complete { query.Queries (seen_volume V.reports V.disk V.faults old.now new.now)
        (query.IsQueryComplete (seen_volume V.reports V.disk V.faults old.now new.now)) }
    ensures done { query.Queries (seen_volume V.reports V.disk V.faults old.now new.now)
        (query.IsQueryDone (seen_volume V.reports V.disk V.faults old.now new.now)) }
    ensures answered { query.Queries (seen_volume V.reports V.disk V.faults old.now new.now)
        (query.IsQueryGiven (seen_volume V.reports V.disk V.faults old.now new.now)) }
    ensures unopened { query.IsUnopenedAsked (seen_volume V.reports V.disk V.faults old.now new.now) }
{
    answers_are_one();
}

/// What a sample yields is one thing, and `sample` answers it unless a count of faults rose or memory was refused:
/// all ledgers close, or the files of one would be too long.
pub fn samples_are_answered()
    ensures full { command.SamplesAreCompleteOrFull }
    ensures one { command.SamplesAreOne }
    ensures complete { command.SamplesAreComplete }
{
    samples_go_on();
}

/// An input of `verify` has one verdict. It is answered with its status and line, unless a count of faults rose or
/// memory was refused; so what is a chain is verified.
pub fn verdicts_are_answered<V: Volume>(old: &V, new: &V)
    ensures one { verify.VerdictsAreOne }
    ensures complete { verify.Verifications verify.IsVerifyComplete }
    ensures done { verify.Verifications verify.IsVerifyDone }
    ensures answered { verify.Verifications verify.IsVerifyAnswered }
    ensures complete_runs { verify.VerifyRuns (seen_volume V.reports V.disk V.faults old.now new.now)
        verify.IsVerifyComplete }
    ensures done_runs { verify.VerifyRuns (seen_volume V.reports V.disk V.faults old.now new.now)
        verify.IsVerifyDone }
    ensures answered_runs { verify.VerifyRuns (seen_volume V.reports V.disk V.faults old.now new.now)
        verify.IsVerifyAnswered }
{}

/// `catchup` after the image of a ledger writes what `run` writes of the same records on a store of it.
pub fn catchups_agree()
    ensures { command.CatchupsAgree }
{}

// ---- files of closes

/// An input has at most one outcome of `history`, and one of `changes`.
pub fn file_outcomes_are_one()
    ensures histories { file.FileOutcomesAreOne history_file }
    ensures changes { file.FileOutcomesAreOne changes_file }
{}

/// What `history` answers: where no stream's count of faults rose it is the outcome of its input, with its text and its
/// line, or an allocation failure; so the files of all closes are written where all records close ledgers and none is
/// too large. Each outcome is answered, but where a count rose or memory was refused.
pub fn histories_are_answered()
    ensures complete { file.Writings history_file (file.IsWritingComplete history_file) }
    ensures done { file.Writings history_file (file.IsWritingDone history_file) }
    ensures answered { file.Writings history_file (file.IsWritingAnswered history_file) }
{}

/// The same of `changes`, for which no close is too large.
pub fn changes_are_answered()
    ensures complete { file.Writings changes_file (file.IsWritingComplete changes_file) }
    ensures done { file.Writings changes_file (file.IsWritingDone changes_file) }
    ensures answered { file.Writings changes_file (file.IsWritingAnswered changes_file) }
{}

// ---- with merges beside it

/// Whatever merges are handed in, and wherever it crashes, the ledger is what its records yield with no merge but
/// their own; at least as many are closed as are acknowledged, and a crash leaves these, or with them the record in
/// hand.
pub fn machines_keep_up()
    ensures { machine.MachinesKeepUp }
{}

/// A record that is closed stays so, whatever happens.
pub fn logs_grow()
    ensures { machine.LogsGrow }
{}

/// A machine can begin with each state.
pub fn machines_begin()
    ensures { possible.MachinesBegin }
{}

/// Whatever has happened, each event can happen next where what it asks for holds: so the ledger of a record that is
/// kept can close, whatever merges were handed in.
pub fn machines_go_on()
    ensures { possible.MachinesGoOn }
{}

/// What `adopt` says of an outcome that it hands in is an event of the machine.
pub fn hand_ins_are_events()
    ensures { ledger.HandInsAreEvents }
{}

/// What `Ledger::install` says of the record that is kept is an event of the machine.
pub fn closes_are_events()
    ensures { ledger.ClosesAreEvents }
{}
