//! The answer of a ledger to a query for the cheapest path, which is the entire input.

ghost use Rattle.std.specs.Prelude.{◌≡◌, ◌≤◌, pos, length, IfOk, MatchResult};
ghost use Rattle.outside.specs.Streams.{GaveAll};
ghost use Rattle.run_outcome.specs.run_streams.Seen.{seen};
ghost use Rattle.run_outcome.specs.PathRun.{max_query_len, path_lines, query_context, unanswered_line};
ghost use Rattle.run_outcome.specs.declared.status.Status.TheVariants as status;
ghost use Rattle.reports.specs.Answering as spec;
ghost use Rattle.reports.specs.Ends.{Wrote};

use crate::ends::write_last;
use entry_map::Entries;
use ledger_close::Ledger;
use ledger_types::LedgerHeader;
use outside::{ReadAllFault, Sink, Source, read_all};
use path_finder::{
    Found, PathFault, PathQuery, cheapest, cheapest_paths_are_one, legal_states_are_crossable,
    queries_are_encoded_lawfully, read_path_query,
};
use run_outcome::Status;
use run_text::{path_text, unanswered_text};
use sponsor_rules::Ctx;
use std::alloc::Global;
use tx_apply::ctx_of;
use xdr_core::{Cursor, ReadFault, XdrFault};

/// The most bytes of a query.
const MAX_QUERY_LEN: usize = 8192;

/// Reads the input to its end. A longer one is given up at the first byte beyond the limit, or some bytes later.
fn read_input<I: Source>(alloc: Global, input: &mut I) -> Result<Vec<u8>, Status>
    ensures { MatchResult result
        (λ text. GaveAll (I.left input.old) (I.left input.new) max_query_len text.items)
        (λ end. spec.IsUnread (seen I.left I.faults input.old input.new) end) }
{
    match read_all(alloc, input, MAX_QUERY_LEN) {
        Ok(text) => Ok(text),
        Err(ReadAllFault::Failed) => Err(Status::ReadFault),
        Err(ReadAllFault::TooLong) => Err(Status::BadInput {
            at: MAX_QUERY_LEN as u128,
        }),
        Err(ReadAllFault::NoMemory) => Err(Status::NoMemory),
    }
}

/// The query that is the entire text. One that is read has at most 64 candidates.
fn query_in(alloc: Global, text: &[u8]) -> Result<PathQuery, Status>
    ensures read { spec.IsQueryIn text.now result }
    ensures few { IfOk result (λ query. length query.candidates ≤ 64) }
{
    queries_are_encoded_lawfully();
    let mut cursor = Cursor::new(text);
    let query = match read_path_query(alloc, &mut cursor) {
        Ok(query) => query,
        Err(ReadFault::Xdr(fault)) => return Err(bad_input(fault)),
        Err(ReadFault::NoMemory) => return Err(Status::NoMemory),
    };
    match cursor.end() {
        Ok(()) => Ok(query),
        Err(fault) => Err(bad_input(fault)),
    }
}

/// The end of a run whose input has this fault.
fn bad_input(fault: XdrFault) -> Status
    ensures { result ≡ status.BadInput fault.at }
{
    Status::BadInput {
        at: fault.at as u128,
    }
}

/// Reads the input to its end, as a query.
#[tactic(auto, using(crate::proofs::QueryAnswers::read_entirely, crate::proofs::QueryAnswers::unread))]
fn read_query<I: Source>(alloc: Global, input: &mut I) -> Result<PathQuery, Status>
    ensures read { spec.IsQueryRead (seen I.left I.faults input.old input.new) result }
    ensures few { IfOk result (λ query. length query.candidates ≤ 64) }
{
    match read_input(alloc, input) {
        Ok(text) => query_in(alloc, text.as_slice()),
        Err(end) => Err(end),
    }
}

/// The context of a query under a ledger's header. Its source is that of the operation.
fn context_of(alloc: Global, header: &LedgerHeader, query: &PathQuery) -> Ctx
    ensures { result ≡ query_context header.now query.now }
{
    ctx_of(
        alloc,
        header,
        header.scp_value.close_time,
        header.id_pool,
        query.source,
        0,
    )
}

/// The cheapest path in the entries of a ledger.
fn find(alloc: Global, ledger: &Ledger, query: &PathQuery) -> Result<Option<Found>, PathFault>
    requires { length query.now.candidates ≤ 64 }
    ensures { spec.Finds ledger.now.state query.now result }
{
    ledger.is_closing();
    legal_states_are_crossable();
    let mut entries = Entries::new(alloc, ledger)?;
    let ctx = context_of(alloc, ledger.header(), query);
    cheapest(&mut entries, &ctx, query)
}

/// Writes the lines of the cheapest path.
fn write_path<O: Sink>(alloc: Global, found: &Option<Found>, out: &mut O) -> Status
    ensures { Wrote (seen O.taken O.faults out.old out.new) (path_lines found.now) status.Done result }
{
    match path_text(alloc, found) {
        Ok(text) => write_last(text.as_slice(), Status::Done, out),
        Err(_) => Status::NoMemory,
    }
}

/// Writes why a query isn't answered.
fn write_unanswered<O: Sink>(alloc: Global, fault: PathFault, out: &mut O) -> Status
    ensures { Wrote (seen O.taken O.faults out.old out.new) (unanswered_line fault) status.Refused result }
{
    match unanswered_text(alloc, fault) {
        Ok(text) => write_last(text.as_slice(), Status::Refused, out),
        Err(_) => Status::NoMemory,
    }
}

/// Writes the cheapest path, or why the query isn't answered.
fn write_answer<O: Sink>(
    alloc: Global,
    answer: Result<Option<Found>, PathFault>,
    out: &mut O,
) -> Status
    ensures { spec.WroteAnswer answer (seen O.taken O.faults out.old out.new) result }
{
    match answer {
        Ok(found) => write_path(alloc, &found, out),
        Err(PathFault::NoMemory) => Status::NoMemory,
        Err(fault) => write_unanswered(alloc, fault, out),
    }
}

/// Answers the query that is the entire input, of at most 8192 bytes: it writes the cheapest path in the entries of a
/// ledger, or why the query isn't answered.
pub fn answer_query<I: Source, O: Sink>(
    alloc: Global,
    ledger: &Ledger,
    input: &mut I,
    out: &mut O,
) -> Status
    ensures { spec.AnswersQuery ledger.now.state (seen I.left I.faults input.old input.new)
        (seen O.taken O.faults out.old out.new) result }
{
    match read_query(alloc, input) {
        Ok(query) => write_answer(alloc, find(alloc, ledger, &query), out),
        Err(end) => end,
    }
}

/// A ledger has at most one answer to an input.
pub fn answers_are_one()
    ensures { spec.AnswersAreOne }
{
    cheapest_paths_are_one();
}
