//! Cases of single calls that no run of the ledger makes.
//!
//!     find FILE KEY       what the file of a bucket says of a key: that it is gone, or something else
//!     upgrade UPGRADE     an upgrade, read and written again

use crate::levels::read_bucket;
use crate::machine::Machine;
use crate::output::Output;
use ledger_types::BucketEntry;
use std::alloc::Global;
use xdr_core::{Builder, Cursor};
use xdr_entries::read_ledger_key;
use xdr_header::{read_ledger_upgrade, write_ledger_upgrade};

/// Calls, which have no state between them.
#[derive(Drop)]
pub struct Calls;

fn find(alloc: Global, input: &mut Cursor<'_>, output: &mut Output) -> Option<()> {
    let bucket = read_bucket(alloc, input)?;
    let key = read_ledger_key(alloc, input).ok()?;
    output.word(match bucket.find(&key).ok()? {
        None => "nothing",
        Some(BucketEntry::Dead(_)) => "gone",
        Some(_) => "there",
    });
    Some(())
}

fn upgrade(alloc: Global, input: &mut Cursor<'_>, output: &mut Output) -> Option<()> {
    let upgrade = read_ledger_upgrade(input).ok()?;
    let mut builder = Builder::new(alloc);
    write_ledger_upgrade(&upgrade, &mut builder).ok()?;
    output.bytes(builder.as_slice());
    Some(())
}

impl Machine for Calls {
    fn step(
        &mut self,
        alloc: Global,
        name: &str,
        input: &mut Cursor<'_>,
        output: &mut Output,
    ) -> Option<()> {
        match name.as_bytes() {
            b"find" => find(alloc, input, output),
            b"upgrade" => upgrade(alloc, input, output),
            _ => None,
        }
    }
}
