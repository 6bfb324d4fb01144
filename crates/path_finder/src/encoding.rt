//! The encoding of a query (XDR, RFC 4506), as it is read, and its laws.

ghost use Rattle.std.specs.Prelude.{◌≡◌, ◌≤◌, length, Ok};
ghost use Rattle.xdr_core.specs.Format.{Lawful, IsPrefixFree, FaultsRightly, LocatesFaults, IsBytes};
ghost use Rattle.xdr_core.specs.Position.{Position, Reads};
ghost use Rattle.xdr_core.specs.ReadFault.{cause_of};
ghost use Rattle.path_finder.specs.declared.query.PathQuery.{PathQuery as AQuery};
ghost use Rattle.path_finder.specs.Encoding as spec;

use crate::query::PathQuery;
use std::alloc::Global;
use xdr_core::{Cursor, ReadFault, read_list};
use xdr_entries::{AssetFormat, read_account_id, read_asset};

/// The most candidates of a query that is read, repeats included.
const MAX_CANDIDATES_READ: u32 = 64;

/// Reads a query: the source, what is sent, what arrives, the amount, and at most 64 candidates. A fault leaves the
/// cursor as it was.
#[tactic(auto, unfolding(crate::specs::Encoding::path_query))]
pub fn read_path_query(alloc: Global, cursor: &mut Cursor<'_>) -> Result<PathQuery, ReadFault>
    ensures { Reads cause_of result cursor.old cursor.new (spec.path_query.read cursor.old) }
{
    let mut ahead = cursor.fork();
    let source = read_account_id(&mut ahead)?;
    let send = read_asset(&mut ahead)?;
    let dest = read_asset(&mut ahead)?;
    let amount = ahead.i64()?;
    let candidates = read_list::<AssetFormat>(alloc, MAX_CANDIDATES_READ, &mut ahead)?;
    *cursor = ahead;
    Ok(PathQuery {
        source,
        send,
        dest,
        amount,
        candidates,
    })
}

/// What is read as a query is encoded so, and what is encoded so is read whatever follows; no encoding begins another;
/// a fault comes only where no prefix of the text is an encoding, and has its offset; a query that is read has at most
/// 64 candidates.
#[tactic(auto, using(crate::proofs::EncodingLaws::path_query_rules))]
pub fn queries_are_encoded_lawfully()
    ensures lawful { Lawful spec.path_query }
    ensures prefix_free { IsPrefixFree spec.path_query }
    ensures faults { FaultsRightly spec.path_query }
    ensures located { LocatesFaults spec.path_query }
    ensures few { (p q : Position) (query : AQuery)
        → IsBytes p.rest → spec.path_query.read p ≡ Ok (query, q) → length query.candidates ≤ 64 }
{}
