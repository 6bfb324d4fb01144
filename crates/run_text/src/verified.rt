//! What is said of the files of a history.

ghost use Rattle.std.specs.Prelude.{◌≡◌, ◌++◌, OnOk, IfOk};
ghost use Rattle.archive_files.specs.declared.history.HistoryFault.TheVariants as fault;
ghost use Rattle.run_outcome.specs.Lines.{spaced};
ghost use Rattle.run_outcome.specs.VerifyRun as spec;

use crate::pieces::{push_hash_word, push_number_word, push_word};
use crate::refused::{kind_name, push_numbered};
use archive_files::{HistoryFault, Verified};
use std::alloc::{AllocError, Global};
use xdr_core::XdrKind;

/// The line of files that form a chain.
#[tactic(auto, unfolding(run_outcome::specs::VerifyRun::verified_line))]
pub fn verified_text(alloc: Global, verified: &Verified) -> Result<Vec<u8>, AllocError>
    ensures { IfOk result (λ text. text.items ≡ spec.verified_line verified.now) }
{
    let mut text = Vec::new(alloc);
    text.extend_from_slice(b"verified")?;
    push_number_word(alloc, &mut text, u128::from(verified.closes))?;
    push_hash_word(alloc, &mut text, &verified.last)?;
    text.push(b'\n')?;
    Ok(text)
}

/// Puts the fault of a record that isn't read at the end of a text, after a space.
#[tactic(auto, unfolding(run_outcome::specs::VerifyRun::history_fault_text))]
fn push_unread(
    alloc: Global,
    text: &mut Vec<u8>,
    file: u32,
    at: usize,
    kind: XdrKind,
) -> Result<(), AllocError>
    ensures { OnOk result (text.new.items ≡ text.old.items
        ++ spaced (spec.history_fault_text (fault.Xdr file at kind))) }
{
    push_word(text, b"Xdr")?;
    push_number_word(alloc, text, u128::from(file))?;
    push_number_word(alloc, text, at as u128)?;
    push_word(text, kind_name(kind))
}

/// Puts a stray record at the end of a text, after a space.
#[tactic(auto, unfolding(run_outcome::specs::VerifyRun::history_fault_text))]
fn push_stray(alloc: Global, text: &mut Vec<u8>, file: u32, at: usize) -> Result<(), AllocError>
    ensures { OnOk result (text.new.items ≡ text.old.items
        ++ spaced (spec.history_fault_text (fault.Stray file at))) }
{
    push_word(text, b"Stray")?;
    push_number_word(alloc, text, u128::from(file))?;
    push_number_word(alloc, text, at as u128)
}

/// Puts a header's wrong number at the end of a text, after a space.
#[tactic(auto, unfolding(run_outcome::specs::VerifyRun::history_fault_text))]
fn push_wrong_seq(
    alloc: Global,
    text: &mut Vec<u8>,
    at: usize,
    want: u64,
    given: u32,
) -> Result<(), AllocError>
    ensures { OnOk result (text.new.items ≡ text.old.items
        ++ spaced (spec.history_fault_text (fault.Seq at want given))) }
{
    push_word(text, b"Seq")?;
    push_number_word(alloc, text, at as u128)?;
    push_number_word(alloc, text, u128::from(want))?;
    push_number_word(alloc, text, u128::from(given))
}

/// Puts a fault and its values at the end of a text, after a space.
#[tactic(auto, unfolding(run_outcome::specs::VerifyRun::history_fault_text))]
fn push_history_fault(
    alloc: Global,
    text: &mut Vec<u8>,
    fault: HistoryFault,
) -> Result<(), AllocError>
    ensures { OnOk result (text.new.items ≡ text.old.items ++ spaced (spec.history_fault_text fault)) }
{
    match fault {
        HistoryFault::Xdr { file, at, kind } => push_unread(alloc, text, file, at, kind),
        HistoryFault::Stray { file, at } => push_stray(alloc, text, file, at),
        HistoryFault::Seq { at, want, given } => push_wrong_seq(alloc, text, at, want, given),
        HistoryFault::HeaderHash { at } => push_numbered(alloc, text, b"HeaderHash", at as u128),
        HistoryFault::Link { at } => push_numbered(alloc, text, b"Link", at as u128),
        HistoryFault::SetHash { at } => push_numbered(alloc, text, b"SetHash", at as u128),
        HistoryFault::ResultHash { at } => push_numbered(alloc, text, b"ResultHash", at as u128),
        HistoryFault::NoMemory => push_word(text, b""),
    }
}

/// The line of files that form no chain, for this fault.
#[tactic(auto, unfolding(run_outcome::specs::VerifyRun::unverified_line))]
pub fn unverified_text(alloc: Global, fault: HistoryFault) -> Result<Vec<u8>, AllocError>
    ensures { IfOk result (λ text. text.items ≡ spec.unverified_line fault) }
{
    let mut text = Vec::new(alloc);
    text.extend_from_slice(b"refused")?;
    push_history_fault(alloc, &mut text, fault)?;
    text.push(b'\n')?;
    Ok(text)
}
