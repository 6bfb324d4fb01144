//! The lines of a ledger that is shown.

ghost use Rattle.std.specs.Prelude.{◌≡◌, ◌++◌, OnOk, IfOk};
ghost use Rattle.run_outcome.specs.value_hashes.Hashes.{ledger_hash_of};
ghost use Rattle.run_outcome.specs.Lines as spec;

use crate::pieces::{push_hash_word, push_number, push_signed_word};
use ledger_types::{Hash, LedgerHeader};
use std::alloc::{AllocError, Global};

/// Puts the number of a ledger and the hash of its header, which is `digest`, at the end of a text, as a line.
#[tactic(auto, unfolding(run_outcome::specs::Lines::ledger_line))]
fn push_ledger_line(
    alloc: Global,
    text: &mut Vec<u8>,
    header: &LedgerHeader,
    digest: &Hash,
) -> Result<(), AllocError>
    requires { digest.now ≡ ledger_hash_of header.now }
    ensures { OnOk result (text.new.items ≡ text.old.items ++ spec.ledger_line header.now) }
{
    text.extend_from_slice(b"ledger ")?;
    push_number(alloc, text, u128::from(header.ledger_seq))?;
    push_hash_word(alloc, text, digest)?;
    text.push(b'\n')?;
    Ok(())
}

/// Puts the epoch of a store and the number of its records at the end of a text, as a line.
#[tactic(auto, unfolding(run_outcome::specs::Lines::epoch_line))]
fn push_epoch_line(
    alloc: Global,
    text: &mut Vec<u8>,
    epoch: u64,
    records: usize,
) -> Result<(), AllocError>
    ensures { OnOk result (text.new.items ≡ text.old.items ++ spec.epoch_line epoch records) }
{
    text.extend_from_slice(b"epoch ")?;
    push_number(alloc, text, u128::from(epoch))?;
    text.extend_from_slice(b" records ")?;
    push_number(alloc, text, records as u128)?;
    text.push(b'\n')?;
    Ok(())
}

/// Puts the lumens of a ledger and those of its fee pool at the end of a text, as a line.
#[tactic(auto, unfolding(run_outcome::specs::Lines::lumens_line))]
fn push_lumens_line(
    alloc: Global,
    text: &mut Vec<u8>,
    header: &LedgerHeader,
) -> Result<(), AllocError>
    ensures { OnOk result (text.new.items ≡ text.old.items ++ spec.lumens_line header.now) }
{
    text.extend_from_slice(b"lumens")?;
    push_signed_word(alloc, text, header.total_coins)?;
    push_signed_word(alloc, text, header.fee_pool)?;
    text.push(b'\n')?;
    Ok(())
}

/// Puts the number of entries at the end of a text, as a line.
#[tactic(auto, unfolding(run_outcome::specs::Lines::entries_line))]
fn push_entries_line(alloc: Global, text: &mut Vec<u8>, entries: usize) -> Result<(), AllocError>
    ensures { OnOk result (text.new.items ≡ text.old.items ++ spec.entries_line entries) }
{
    text.extend_from_slice(b"entries ")?;
    push_number(alloc, text, entries as u128)?;
    text.push(b'\n')?;
    Ok(())
}

/// The lines of a ledger with so many entries, whose header has the hash `digest`, and of the store that keeps it: its
/// epoch, and how many records follow the image of that.
#[tactic(auto, unfolding(run_outcome::specs::Lines::shown_lines))]
pub fn shown_text(
    alloc: Global,
    header: &LedgerHeader,
    digest: &Hash,
    epoch: u64,
    records: usize,
    entries: usize,
) -> Result<Vec<u8>, AllocError>
    requires { digest.now ≡ ledger_hash_of header.now }
    ensures { IfOk result (λ text. text.items ≡ spec.shown_lines header.now epoch records entries) }
{
    let mut text = Vec::new(alloc);
    push_ledger_line(alloc, &mut text, header, digest)?;
    push_epoch_line(alloc, &mut text, epoch, records)?;
    push_lumens_line(alloc, &mut text, header)?;
    push_entries_line(alloc, &mut text, entries)?;
    Ok(text)
}
