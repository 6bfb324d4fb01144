//! The line of a sample.

ghost use Rattle.std.specs.Prelude.{◌≡◌, IfOk};
ghost use Rattle.run_outcome.specs.value_hashes.Hashes.{ledger_hash_of};
ghost use Rattle.run_outcome.specs.Lines as spec;

use crate::pieces::{push_hash_word, push_number_word};
use ledger_types::{Hash, LedgerHeader};
use std::alloc::{AllocError, Global};

/// The line of a sample of so many ledgers: the last header has the hash `digest`, and so many transactions are in all
/// of them, of which so many succeeded.
#[tactic(auto, unfolding(run_outcome::specs::Lines::sample_line))]
pub fn sample_text(
    alloc: Global,
    seed: u32,
    ledgers: u32,
    header: &LedgerHeader,
    digest: &Hash,
    transactions: u128,
    successes: u128,
) -> Result<Vec<u8>, AllocError>
    requires { digest.now ≡ ledger_hash_of header.now }
    ensures { IfOk result (λ text. text.items
        ≡ spec.sample_line seed ledgers header.now transactions successes) }
{
    let mut text = Vec::new(alloc);
    text.extend_from_slice(b"sample")?;
    push_number_word(alloc, &mut text, u128::from(seed))?;
    push_number_word(alloc, &mut text, u128::from(ledgers))?;
    push_hash_word(alloc, &mut text, digest)?;
    push_number_word(alloc, &mut text, transactions)?;
    push_number_word(alloc, &mut text, successes)?;
    text.push(b'\n')?;
    Ok(text)
}
