//! Cases of small ledgers: what is applied in one, and what it leaves. The first word of a case's name is `operation`,
//! or the name of a change of sponsorship.
//!
//! The arguments are what operations are applied in; how many entries there are, and which; the operation, or the
//! arguments of the change; and last what is expected: the sponsorships that are open then, and all entries in the
//! order of their keys.

ghost use Rattle.std.specs.Prelude.{◌≡◌, [], IfSome};
ghost use Rattle.std.specs.FinMap.{from_entries};

use crate::answers::{write_answer, write_change};
use crate::machine::Machine;
use crate::operations::applied;
use crate::output::Output;
use crate::ready::{no_entries, put_all};
use crate::sponsoring::changed;
use entry_map::{Entries, MapBase};
use item_list::ItemList;
use ledger_types::LedgerEntry;
use sponsor_rules::{Ctx, Sponsorship};
use std::alloc::Global;
use xdr_core::Cursor;
use xdr_entries::{read_account_id, read_ledger_entry};

/// Reads an open sponsorship.
fn read_sponsorship(input: &mut Cursor<'_>) -> Option<Sponsorship> {
    let sponsored = read_account_id(input).ok()?;
    let sponsor = read_account_id(input).ok()?;
    Some(Sponsorship { sponsored, sponsor })
}

/// Reads a number of open sponsorships, and then these.
fn read_sponsorships(alloc: Global, input: &mut Cursor<'_>) -> Option<ItemList<Sponsorship>> {
    let mut open = ItemList::new(alloc);
    for _ in 0..input.u32().ok()? {
        open.push(read_sponsorship(input)?).ok()?;
    }
    Some(open)
}

/// Reads what operations are applied in.
fn read_ctx(alloc: Global, input: &mut Cursor<'_>) -> Option<Ctx> {
    Some(Ctx {
        seq: input.u32().ok()?,
        version: 18,
        base_reserve: input.u32().ok()?,
        flags: 0,
        close_time: input.u64().ok()?,
        tx_source: read_account_id(input).ok()?,
        tx_seq: input.i64().ok()?,
        op_index: input.u32().ok()?,
        op_source: read_account_id(input).ok()?,
        id_pool: 0,
        sponsorships: read_sponsorships(alloc, input)?,
    })
}

/// Whether the sponsorship that comes next is the same.
fn is_next_open(open: &Sponsorship, input: &mut Cursor<'_>) -> bool {
    match read_sponsorship(input) {
        Some(expected) => open.sponsored == expected.sponsored && open.sponsor == expected.sponsor,
        None => false,
    }
}

/// Whether the entry that comes next is the same.
fn is_next_left(alloc: Global, entry: &LedgerEntry, input: &mut Cursor<'_>) -> bool {
    match read_ledger_entry(alloc, input) {
        Ok(expected) => entry.has_same_parts(&expected),
        Err(_) => false,
    }
}

/// Whether the open sponsorships come next.
fn are_open(open: &[Sponsorship], input: &mut Cursor<'_>) -> bool {
    for sponsorship in open {
        if !is_next_open(sponsorship, input) {
            return false;
        }
    }
    true
}

/// Whether the entries that are left come next, and nothing more.
fn are_left(alloc: Global, left: &[LedgerEntry], input: &mut Cursor<'_>) -> bool {
    for entry in left {
        if !is_next_left(alloc, entry, input) {
            return false;
        }
    }
    input.end().is_ok()
}

/// Writes where a ledger isn't as expected.
fn write_difference(
    alloc: Global,
    entries: &Entries<'_, MapBase>,
    open: &[Sponsorship],
    input: &mut Cursor<'_>,
    output: &mut Output,
) {
    match entries.changes() {
        Ok(left) => {
            if !are_open(open, input) || !are_left(alloc, left.init.as_slice(), input) {
                output.word("and the ledger is otherwise than expected");
            }
        }
        Err(_) => output.word("BAD"),
    }
}

/// Entries over a base without any.
fn no_changes(alloc: Global, base: &MapBase) -> Option<Entries<'_, MapBase>>
    requires { base.now ≡ from_entries [] }
    ensures { IfSome result (λ entries. entries.current ≡ from_entries []) }
{
    Entries::new(alloc, base).ok()
}

/// Runs a case in entries over a base without any.
fn run_over(
    alloc: Global,
    base: &MapBase,
    ctx: &mut Ctx,
    name: &str,
    input: &mut Cursor<'_>,
    output: &mut Output,
) -> Option<()>
    requires { base.now ≡ from_entries [] }
{
    let mut entries = no_changes(alloc, base)?;
    let are_plain = put_all(alloc, &mut entries, input)?;
    if name == "operation" {
        write_answer(output, &applied(alloc, &mut entries, are_plain, ctx, input));
    } else {
        write_change(
            output,
            changed(alloc, &mut entries, are_plain, ctx, name, input),
        );
    }
    write_difference(alloc, &entries, ctx.sponsorships.as_slice(), input, output);
    Some(())
}

/// Small ledgers, each of a case.
#[derive(Drop)]
pub struct Ledgers;

impl Machine for Ledgers {
    fn step(
        &mut self,
        alloc: Global,
        name: &str,
        input: &mut Cursor<'_>,
        output: &mut Output,
    ) -> Option<()> {
        let made = name.split_once(' ').map_or(name, |words| words.0);
        let mut ctx = read_ctx(alloc, input)?;
        let base = no_entries(alloc).ok()?;
        run_over(alloc, &base, &mut ctx, made, input, output)
    }
}
