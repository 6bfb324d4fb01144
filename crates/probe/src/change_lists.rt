//! Cases of lists of changes, applied one list after another to a map that has no entries at first.
//!
//!     apply CHANGES     the changes after their number: whether all were made, or the index of the first that doesn't
//!                       fit; and then what the map has

use crate::machine::{Machine, take_all};
use crate::maps::write_changes;
use crate::output::Output;
use crate::ready::no_entries;
use change_stream::{Change, StreamFault, apply_changes, read_change};
use entry_map::{Entries, MapBase};
use std::alloc::Global;
use xdr_core::Cursor;

/// Entries over a base that has none.
#[derive(Drop)]
struct ChangedEntries<'a> {
    entries: Entries<'a, MapBase>,
}

/// Reads changes after their number.
fn read_changes(alloc: Global, input: &mut Cursor<'_>) -> Option<Vec<Change>> {
    let mut list = Vec::new(alloc);
    for _change in 0..input.u32().ok()? {
        list.push(read_change(alloc, input).ok()?).ok()?;
    }
    Some(list)
}

impl Machine for ChangedEntries<'_> {
    fn step(
        &mut self,
        alloc: Global,
        name: &str,
        input: &mut Cursor<'_>,
        output: &mut Output,
    ) -> Option<()> {
        if name != "apply" {
            return None;
        }
        let list = read_changes(alloc, input)?;
        match apply_changes(&mut self.entries, list.as_slice()) {
            Ok(()) => output.word("applied"),
            Err(StreamFault::Mismatch { index }) => {
                output.word("mismatch");
                output.number(index as i128);
            }
            Err(StreamFault::NoMemory) => return None,
        }
        write_changes(output, &self.entries.changes().ok()?);
        Some(())
    }
}

/// Applies the list of each line.
pub fn run_changes(alloc: Global, lines: &str, output: &mut Output) -> Option<()> {
    let base = no_entries(alloc).ok()?;
    let entries = Entries::new(alloc, &base).ok()?;
    take_all(alloc, &mut ChangedEntries { entries }, lines, output);
    Some(())
}
