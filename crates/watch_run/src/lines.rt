//! The lines of the readers.

ghost use Rattle.std.specs.Prelude.{◌≡◌, ◌≤◌, ◌++◌, All, IfOk, OnOk, length};
ghost use Rattle.std.specs.Option.{option_copied};
ghost use Rattle.ledger_types.specs.declared.ids.AccountId.{AccountId};
ghost use Rattle.ledger_types.specs.declared.key.LedgerKey.TheVariants as key;
ghost use Rattle.run_outcome.specs.close_rules.entry_slots.Accounts.{account_of};
ghost use Rattle.run_outcome.specs.close_rules.State.{ClosingState};
ghost use Rattle.run_outcome.specs.WatchRun.{reader_line, reader_lines};
ghost use Rattle.watch_run.specs.Watching.{IsReadOf};

use ledger_readers::Read;
use ledger_types::{AccountEntry, LedgerEntry, LedgerEntryBody};
use run_text::reader_text_line;
use std::alloc::{AllocError, Global};

/// The account of an entry, if there is one.
fn account_in(entry: &Option<LedgerEntry>) -> Option<&AccountEntry>
    ensures { option_copied result ≡ account_of entry.now }
{
    match &entry.as_ref()?.body {
        LedgerEntryBody::Account(account) => Some(account),
        _ => None,
    }
}

/// Puts the line of a reader at the end of a text.
fn push_line(
    alloc: Global,
    text: &mut Vec<u8>,
    number: u32,
    read: &Read<LedgerEntry>,
) -> Result<(), AllocError>
    ensures { OnOk result (text.new.items
        ≡ text.old.items ++ reader_line number read.now.seq (account_of read.now.entry)) }
{
    let line = reader_text_line(alloc, number, read.seq, account_in(&read.entry))?;
    text.extend_from_slice(line.as_slice())
}

/// The lines of readers, numbered from 1, by what each read.
pub(crate) fn reader_texts(
    alloc: Global,
    reads: &[Read<LedgerEntry>],
) -> Result<Vec<u8>, AllocError>
    requires { length reads.now ≤ 4 }
    ensures { IfOk result (λ text. (s : ClosingState) (id : AccountId)
        → All (λ r. IsReadOf s (key.Account id) r.seq r.entry) reads.now
        → text.items ≡ reader_lines (length reads.now) id s) }
{
    let mut text = Vec::new(alloc);
    let mut number = 0u32;
    for read in reads {
        number += 1;
        push_line(alloc, &mut text, number, read)?;
    }
    Ok(text)
}
