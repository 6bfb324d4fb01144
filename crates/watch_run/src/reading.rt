//! How readers read while ledgers close.

ghost use Rattle.std.specs.Prelude.{◌≡◌, ◌≤◌, ◌<◌, length};
ghost use denote.Param.Send.{IsSync};

use ledger_close::View;
use ledger_readers::{LedgerReader, Publication};
use ledger_types::{AccountId, LedgerKey};
use outside::Gate;
use std::sync::atomic::{AtomicBool, Ordering};
use std::thread::{self, Threads};

/// How often each reader reads while ledgers close.
const READS: u32 = 100;

/// How many threads the readers take at most.
const THREADS: usize = 4;

/// A reader reads an account again and again, each time once the gate lets it pass. It notes that memory was refused
/// for a read.
fn read_often<J: Publication, G: Gate>(
    gate: &G,
    number: u32,
    account_id: AccountId,
    refused: &AtomicBool,
    reader: &mut LedgerReader<View, J>,
) {
    let key = LedgerKey::Account { account_id };
    for _ in 0..READS {
        gate.pass(0, number);
        if reader.read(&key).is_err() {
            refused.store(true, Ordering::SeqCst);
        }
    }
}

/// Each reader reads in a thread of its own. They are numbered from 1.
pub(crate) fn read_beside<R: Threads + Sync, J: Publication + Send + Sync, G: Gate>(
    rt: &R,
    gate: &G,
    account: AccountId,
    refused: &AtomicBool,
    readers: &mut [LedgerReader<View, J>],
)
    requires { length readers.old ≤ 4 }
    ensures { length readers.new ≡ length readers.old }
{
    thread::for_each_mut(
        rt,
        readers,
        THREADS,
        &|index: usize, reader: &mut LedgerReader<View, J>|
            requires { IsSync G.row × (index < 4) }
        { read_often(gate, index as u32 + 1, account, refused, reader) },
    );
}
