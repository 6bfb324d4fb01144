//! The line of a record that is refused.

ghost use Rattle.std.specs.Prelude.{◌≡◌, ◌++◌, OnOk, IfOk};
ghost use Rattle.std.specs.Fmt.{decimal};
ghost use Rattle.run_outcome.specs.close_rules.declared.close_fault.CloseFault.TheVariants as fault;
ghost use Rattle.run_outcome.specs.Lines as spec;

use crate::pieces::{push_hash_word, push_number, push_number_word, push_word};
use ledger_types::{Hash, LedgerHeader};
use run_outcome::close_rules::CloseFault;
use std::alloc::{AllocError, Global};
use xdr_core::XdrKind;

pub(crate) fn kind_name(kind: XdrKind) -> &'static [u8]
    ensures { result.now ≡ spec.kind_name kind }
{
    match kind {
        XdrKind::Short => b"Short",
        XdrKind::Padding => b"Padding",
        XdrKind::BadEnum => b"BadEnum",
        XdrKind::BadFlag => b"BadFlag",
        XdrKind::TooLong => b"TooLong",
        XdrKind::BadMark => b"BadMark",
        XdrKind::Trailing => b"Trailing",
        XdrKind::TooDeep => b"TooDeep",
    }
}

/// Puts a name and two numbers at the end of a text.
fn push_numbers(
    alloc: Global,
    text: &mut Vec<u8>,
    name: &[u8],
    first: u128,
    second: u128,
) -> Result<(), AllocError>
    ensures { OnOk result (text.new.items ≡ text.old.items
        ++ spec.spaced (name.now ++ spec.spaced (decimal first) ++ spec.spaced (decimal second))) }
{
    push_word(text, name)?;
    push_number_word(alloc, text, first)?;
    push_number_word(alloc, text, second)
}

/// Puts a name and one number at the end of a text.
pub(crate) fn push_numbered(
    alloc: Global,
    text: &mut Vec<u8>,
    name: &[u8],
    number: u128,
) -> Result<(), AllocError>
    ensures { OnOk result (text.new.items ≡ text.old.items
        ++ spec.spaced (name.now ++ spec.spaced (decimal number))) }
{
    push_word(text, name)?;
    push_number_word(alloc, text, number)
}

/// Puts a name and two hashes at the end of a text.
fn push_hashes(
    alloc: Global,
    text: &mut Vec<u8>,
    name: &[u8],
    first: &Hash,
    second: &Hash,
) -> Result<(), AllocError>
    ensures { OnOk result (text.new.items ≡ text.old.items
        ++ spec.spaced (name.now ++ spec.spaced (spec.hash_text first.now)
        ++ spec.spaced (spec.hash_text second.now))) }
{
    push_word(text, name)?;
    push_hash_word(alloc, text, first)?;
    push_hash_word(alloc, text, second)
}

/// Puts the fault of a record that doesn't read at the end of a text.
#[tactic(auto, unfolding(run_outcome::specs::Lines::fault_text))]
fn push_bad_xdr(
    alloc: Global,
    text: &mut Vec<u8>,
    at: usize,
    kind: XdrKind,
) -> Result<(), AllocError>
    ensures { OnOk result (text.new.items ≡ text.old.items ++ spec.spaced (spec.fault_text (fault.BadXdr at kind))) }
{
    push_word(text, b"BadXdr")?;
    push_number_word(alloc, text, at as u128)?;
    push_word(text, kind_name(kind))
}

/// Puts a fault and its values at the end of a text, after a space.
#[tactic(auto, unfolding(run_outcome::specs::Lines::fault_text))]
fn push_fault(alloc: Global, text: &mut Vec<u8>, fault: CloseFault) -> Result<(), AllocError>
    ensures { OnOk result (text.new.items ≡ text.old.items ++ spec.spaced (spec.fault_text fault)) }
{
    match fault {
        CloseFault::BadXdr { at, kind } => push_bad_xdr(alloc, text, at, kind),
        CloseFault::SeqEnd => push_word(text, b"SeqEnd"),
        CloseFault::WrongSeq { want, given } => {
            push_numbers(
                alloc,
                text,
                b"WrongSeq",
                u128::from(want),
                u128::from(given),
            )
        }
        CloseFault::WrongPrevious { have, given } => {
            push_hashes(alloc, text, b"WrongPrevious", &have, &given)
        }
        CloseFault::WrongSetHash { have, given } => {
            push_hashes(alloc, text, b"WrongSetHash", &have, &given)
        }
        CloseFault::StaleTime { last, given } => {
            push_numbers(
                alloc,
                text,
                b"StaleTime",
                u128::from(last),
                u128::from(given),
            )
        }
        CloseFault::BadUpgrade { index } => {
            push_numbered(alloc, text, b"BadUpgrade", u128::from(index))
        }
        CloseFault::UpgradeOutOfProfile { index } => {
            push_numbered(alloc, text, b"UpgradeOutOfProfile", u128::from(index))
        }
        CloseFault::FeeSourceMissing { index } => {
            push_numbered(alloc, text, b"FeeSourceMissing", u128::from(index))
        }
        CloseFault::LedgerFull { bytes } => push_numbered(alloc, text, b"LedgerFull", bytes),
        CloseFault::NoMemory => push_word(text, b""),
    }
}

/// The line of a record that doesn't close the ledger after `header`.
#[tactic(auto, unfolding(run_outcome::specs::Lines::refused_line))]
pub fn refused_text(
    alloc: Global,
    header: &LedgerHeader,
    fault: CloseFault,
) -> Result<Vec<u8>, AllocError>
    ensures { IfOk result (λ text. text.items ≡ spec.refused_line header.now fault) }
{
    let mut text = Vec::new(alloc);
    text.extend_from_slice(b"refused ")?;
    push_number(alloc, &mut text, u128::from(header.ledger_seq) + 1)?;
    push_fault(alloc, &mut text, fault)?;
    text.push(b'\n')?;
    Ok(text)
}
