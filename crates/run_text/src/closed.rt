//! The lines of a ledger that closed, and of the last one.

ghost use Rattle.std.specs.Prelude.{◌≡◌, ◌++◌, OnOk, IfOk, count_by};
ghost use Rattle.std.specs.List.{flat_map};
ghost use Rattle.std.specs.Fmt.{signed_decimal};
ghost use Rattle.op_types.specs.Codes.{outcome_code};
ghost use Rattle.run_outcome.specs.value_hashes.Hashes.{ledger_hash_of};
ghost use Rattle.run_outcome.specs.Lines as spec;

use crate::pieces::{
    push_hash, push_hash_word, push_number, push_number_word, push_signed_word, push_word,
};
use ledger_types::{Hash, LedgerHeader};
use op_types::{Coded, TransactionOutcome, TransactionResultPair};
use std::alloc::{AllocError, Global};

/// Puts the code of how a transaction ended at the end of a text, after a space.
fn push_code_word(
    alloc: Global,
    text: &mut Vec<u8>,
    outcome: &TransactionOutcome,
) -> Result<(), AllocError>
    ensures { OnOk result (text.new.items
        ≡ text.old.items ++ spec.spaced (signed_decimal (outcome_code outcome.now))) }
{
    let digits = outcome.code().to_string(alloc)?;
    push_word(text, digits.as_bytes())
}

/// Puts the line of a transaction at the end of a text.
#[tactic(auto, unfolding(run_outcome::specs::Lines::tx_line))]
fn push_tx_line(
    alloc: Global,
    text: &mut Vec<u8>,
    pair: &TransactionResultPair,
) -> Result<(), AllocError>
    ensures { OnOk result (text.new.items ≡ text.old.items ++ spec.tx_line pair.now) }
{
    text.extend_from_slice(b"tx ")?;
    push_hash(alloc, text, &pair.transaction_hash)?;
    push_signed_word(alloc, text, pair.result.fee_charged)?;
    push_code_word(alloc, text, &pair.result.outcome)?;
    text.push(b'\n')?;
    Ok(())
}

/// Puts the lines of transactions at the end of a text.
fn push_tx_lines(
    alloc: Global,
    text: &mut Vec<u8>,
    pairs: &[TransactionResultPair],
) -> Result<(), AllocError>
    ensures { OnOk result (text.new.items ≡ text.old.items ++ flat_map spec.tx_line pairs.now) }
{
    for pair in pairs {
        push_tx_line(alloc, text, pair)?;
    }
    Ok(())
}

/// Whether a transaction succeeded.
fn is_success(outcome: &TransactionOutcome) -> bool
    ensures { result ≡ spec.is_success outcome.now }
{
    match outcome {
        TransactionOutcome::Success(_) => true,
        TransactionOutcome::FeeBumpInnerSuccess(_) => true,
        _ => false,
    }
}

/// How many transactions succeeded.
pub fn success_count(pairs: &[TransactionResultPair]) -> usize
    ensures { result ≡ spec.success_count pairs.now }
{
    let mut count = 0;
    for pair in pairs {
        if is_success(&pair.result.outcome) {
            count += 1;
        }
    }
    count
}

/// Puts the line of a closed ledger, whose header has the hash `digest`, at the end of a text.
#[tactic(auto, unfolding(run_outcome::specs::Lines::closed_line))]
fn push_closed_line(
    alloc: Global,
    text: &mut Vec<u8>,
    header: &LedgerHeader,
    digest: &Hash,
    pairs: &[TransactionResultPair],
) -> Result<(), AllocError>
    requires { digest.now ≡ ledger_hash_of header.now }
    ensures { OnOk result (text.new.items ≡ text.old.items ++ spec.closed_line header.now pairs.now) }
{
    text.extend_from_slice(b"closed ")?;
    push_number(alloc, text, u128::from(header.ledger_seq))?;
    push_hash_word(alloc, text, digest)?;
    push_number_word(alloc, text, pairs.len() as u128)?;
    push_number_word(alloc, text, success_count(pairs) as u128)?;
    text.push(b'\n')?;
    Ok(())
}

/// The lines of a ledger that closed with these results, whose header has the hash `digest`.
#[tactic(auto, unfolding(run_outcome::specs::Lines::closed_lines))]
pub fn closed_text(
    alloc: Global,
    header: &LedgerHeader,
    digest: &Hash,
    pairs: &[TransactionResultPair],
) -> Result<Vec<u8>, AllocError>
    requires { digest.now ≡ ledger_hash_of header.now }
    ensures { IfOk result (λ text. text.items ≡ spec.closed_lines header.now pairs.now) }
{
    let mut text = Vec::new(alloc);
    push_tx_lines(alloc, &mut text, pairs)?;
    push_closed_line(alloc, &mut text, header, digest, pairs)?;
    Ok(text)
}

/// The line at the end of the input, after the last ledger, whose header has the hash `digest`.
#[tactic(auto, unfolding(run_outcome::specs::Lines::end_line))]
pub fn end_text(alloc: Global, header: &LedgerHeader, digest: &Hash) -> Result<Vec<u8>, AllocError>
    requires { digest.now ≡ ledger_hash_of header.now }
    ensures { IfOk result (λ text. text.items ≡ spec.end_line header.now) }
{
    let mut text = Vec::new(alloc);
    text.extend_from_slice(b"end ")?;
    push_number(alloc, &mut text, u128::from(header.ledger_seq))?;
    push_hash_word(alloc, &mut text, digest)?;
    text.push(b'\n')?;
    Ok(text)
}
