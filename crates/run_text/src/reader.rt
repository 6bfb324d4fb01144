//! The line of a reader beside a ledger.

ghost use Rattle.std.specs.Prelude.{◌≡◌, ◌++◌, OnOk, IfOk};
ghost use Rattle.std.specs.Option.{option_copied};
ghost use Rattle.run_outcome.specs.Lines.{spaced};
ghost use Rattle.run_outcome.specs.WatchRun as spec;

use crate::pieces::{push_number_word, push_signed_word, push_word};
use ledger_types::AccountEntry;
use std::alloc::{AllocError, Global};

/// Puts the balance of an account, in stroops, or that there is none, at the end of a text, after a space.
#[tactic(auto, unfolding(run_outcome::specs::WatchRun::balance_text))]
fn push_balance(
    alloc: Global,
    text: &mut Vec<u8>,
    account: Option<&AccountEntry>,
) -> Result<(), AllocError>
    ensures { OnOk result (text.new.items
        ≡ text.old.items ++ spaced (spec.balance_text (option_copied account.entry))) }
{
    match account {
        Some(account) => push_signed_word(alloc, text, account.balance),
        None => push_word(text, b"none"),
    }
}

/// The line of the reader with this number, 1 to 4: the ledger that it read, and the balance of its account there.
#[tactic(auto, unfolding(run_outcome::specs::WatchRun::reader_line))]
pub fn reader_text_line(
    alloc: Global,
    number: u32,
    seq: u32,
    account: Option<&AccountEntry>,
) -> Result<Vec<u8>, AllocError>
    ensures { IfOk result (λ text. text.items ≡ spec.reader_line number seq (option_copied account.entry)) }
{
    let mut text = b"reader".to_vec(alloc)?;
    push_number_word(alloc, &mut text, u128::from(number))?;
    push_number_word(alloc, &mut text, u128::from(seq))?;
    push_balance(alloc, &mut text, account)?;
    text.push(b'\n')?;
    Ok(text)
}
