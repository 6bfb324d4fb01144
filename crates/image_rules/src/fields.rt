//! The numbers of a header.

ghost use Rattle.std.specs.Prelude.{◌≡◌, ◌*◌, ◌^◌, ◌≤◌, ◌↔◌, pos, ◌≤ℤ◌, IsTrue};
ghost use Rattle.close_rules.specs.legal_rules.Headers.{header_flags};
ghost use Rattle.close_rules.specs.op_form.Sequences.{last_seq};
ghost use Rattle.close_rules.specs.Images.{AreFieldsInRange};

use close_rules::LAST_SEQ;
use ledger_types::LedgerHeader;

/// Which operations of pools are disabled.
fn flags_of(header: &LedgerHeader) -> u32
    ensures { result ≡ header_flags header.now }
{
    match &header.ext {
        None => 0,
        Some(ext) => ext.flags,
    }
}

/// Whether the number of a ledger is one, and no more ids were drawn than ledgers draw.
fn is_number_in_range(ledger_seq: u32, id_pool: u64) -> bool
    ensures { IsTrue result ↔
        ((1 ≤ ledger_seq) × (ledger_seq ≤ last_seq) × (id_pool ≤ ledger_seq * 2 ^ 32)) }
{
    1 <= ledger_seq && ledger_seq <= LAST_SEQ && id_pool <= u64::from(ledger_seq) * 4_294_967_296
}

/// Whether what is paid with and what it counts in are in their ranges.
fn are_coins_in_range(header: &LedgerHeader) -> bool
    ensures { IsTrue result ↔ ((1 ≤ header.now.base_fee) × (1 ≤ header.now.base_reserve)
        × (pos 0 ≤ℤ header.now.total_coins) × (pos 0 ≤ℤ header.now.fee_pool)) }
{
    1 <= header.base_fee
        && 1 <= header.base_reserve
        && 0 <= header.total_coins
        && 0 <= header.fee_pool
}

/// Whether the numbers of a header are in their ranges.
pub fn are_fields_in_range(header: &LedgerHeader) -> bool
    ensures { IsTrue result ↔ AreFieldsInRange header.now }
{
    is_number_in_range(header.ledger_seq, header.id_pool)
        && are_coins_in_range(header)
        && flags_of(header) <= 7
}
