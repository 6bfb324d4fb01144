//! What a transaction is applied in.

ghost use Rattle.std.specs.Prelude.{◌≡◌};
ghost use Rattle.tx_apply.specs.Contexts as spec;
ghost use Rattle.op_laws.specs.legal_rules.Headers.{header_flags as flags_of};

use item_list::ItemList;
use ledger_types::{AccountId, LedgerHeader};
use sponsor_rules::Ctx;
use std::alloc::Global;

/// The flags of a header, 0 without its extension (CAP-0038).
fn header_flags(header: &LedgerHeader) -> u32
    ensures { result ≡ flags_of header.now }
{
    match &header.ext {
        None => 0,
        Some(ext) => ext.flags,
    }
}

/// The context of a transaction before its operations, under the header of the ledger before. It takes no memory.
pub fn ctx_of(
    alloc: Global,
    header: &LedgerHeader,
    close_time: u64,
    id_pool: u64,
    source: AccountId,
    seq_num: i64,
) -> Ctx
    ensures { result ≡ spec.ctx_of header.now close_time id_pool source seq_num }
{
    Ctx {
        seq: header.ledger_seq,
        version: header.ledger_version,
        base_reserve: header.base_reserve,
        flags: header_flags(header),
        close_time,
        tx_source: source,
        tx_seq: seq_num,
        op_index: 0,
        op_source: source,
        id_pool,
        sponsorships: ItemList::new(alloc),
    }
}
