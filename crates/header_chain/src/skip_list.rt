//! The hashes of earlier levels.

ghost use Rattle.std.specs.Prelude.{◌≡◌, if◌then◌else◌};
ghost use Rattle.header_chain.specs.SkipList as spec;

use ledger_types::{Hash, LedgerHeader};

fn sets_first(seq: u32) -> bool
    ensures { result ≡ spec.sets_first seq }
{
    seq % 50 == 0
}

fn moves_first(seq: u32) -> bool
    ensures { result ≡ spec.moves_first seq }
{
    sets_first(seq) && seq > 50 && (seq - 50) % 5000 == 0
}

fn moves_second(seq: u32) -> bool
    ensures { result ≡ spec.moves_second seq }
{
    moves_first(seq) && seq > 5050 && (seq - 5050) % 50000 == 0
}

fn moves_third(seq: u32) -> bool
    ensures { result ≡ spec.moves_third seq }
{
    moves_second(seq) && seq > 55050 && (seq - 55050) % 500000 == 0
}

/// One of two hashes.
fn either(is_first: bool, first: Hash, second: Hash) -> Hash
    ensures { result ≡ if is_first then first else second }
{
    if is_first { first } else { second }
}

/// Sets the hash of a header's levels, and then its skip list, which is that of the header before.
pub fn finish(header: &mut LedgerHeader, list_hash: Hash)
    ensures { header.new ≡ spec.finished header.old list_hash }
{
    let seq = header.ledger_seq;
    let [first, second, third, fourth] = header.skip_list;
    header.bucket_list_hash = list_hash;
    header.skip_list = [
        either(sets_first(seq), list_hash, first),
        either(moves_first(seq), first, second),
        either(moves_second(seq), second, third),
        either(moves_third(seq), third, fourth),
    ];
}
