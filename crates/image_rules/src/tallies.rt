//! What all entries count for accounts, lines and pools, in all aggregates at once.

ghost use Rattle.std.specs.Prelude.{◌≡◌, OnOk};
ghost use Rattle.close_rules.specs.legal_rules.Legal.{pools_in};
ghost use Rattle.image_rules.specs.declared.aggregates.Aggregate.{Aggregate as AnAggregate};
ghost use Rattle.image_rules.specs.Terms.{AreTerms};
ghost use Rattle.image_rules.specs.Counts.{Adds, count_at};
ghost use Rattle.image_rules.specs.Aggregates.{counted_else};
ghost use Rattle.image_rules.specs.Tallies.{tally_in};
ghost use Rattle.ledger_types.specs.declared.key.LedgerKey.{LedgerKey as AKey};

use crate::aggregates::{Aggregate, add_entry, add_payers};
use crate::counts::Tally;
use ledger_types::{LedgerEntry, LedgerEntryBody};
use level_entries::PlacedEntries;
use std::alloc::{AllocError, Global};
use std::collections::BTreeMap;

/// What entries count for others in each aggregate.
#[derive(Drop)]
pub struct Tallies {
    /// For each account its subentries.
    pub subentries: Tally,
    /// For each account the reserves that it pays as a sponsor.
    pub sponsoring: Tally,
    /// For each account the reserves that others pay for it.
    pub sponsored: Tally,
    /// For each account and each line what offers may take from it.
    pub selling: Tally,
    /// For each account and each line what offers may put into it.
    pub buying: Tally,
    /// For each pool its shares.
    pub shares: Tally,
    /// For each pool the lines in its shares.
    pub share_lines: Tally,
    /// For each line the lines of pool shares that need it.
    pub uses: Tally,
}

/// Tallies in which nothing is counted.
pub fn no_tallies(alloc: Global) -> Tallies
    ensures { (which : AnAggregate) (k : AKey) → count_at (tally_in result which) k ≡ 0 }
{
    Tallies {
        subentries: BTreeMap::new(alloc),
        sponsoring: BTreeMap::new(alloc),
        sponsored: BTreeMap::new(alloc),
        selling: BTreeMap::new(alloc),
        buying: BTreeMap::new(alloc),
        shares: BTreeMap::new(alloc),
        share_lines: BTreeMap::new(alloc),
        uses: BTreeMap::new(alloc),
    }
}

/// Counts what an entry that isn't an account counts for others in each aggregate.
fn add_each(
    tallies: &mut Tallies,
    entries: &PlacedEntries<'_>,
    entry: &LedgerEntry,
) -> Result<(), AllocError>
    requires { AreTerms entry.now.body }
    ensures { OnOk result ((which : AnAggregate) → Adds (tally_in tallies.old which) (tally_in tallies.new which)
        (λ k. counted_else (pools_in entries.now) which k entry.now)) }
{
    add_entry(
        &mut tallies.subentries,
        Aggregate::Subentries,
        entries,
        entry,
    )?;
    add_entry(
        &mut tallies.sponsoring,
        Aggregate::Sponsoring,
        entries,
        entry,
    )?;
    add_entry(&mut tallies.sponsored, Aggregate::Sponsored, entries, entry)?;
    add_entry(&mut tallies.selling, Aggregate::Selling, entries, entry)?;
    add_entry(&mut tallies.buying, Aggregate::Buying, entries, entry)?;
    add_entry(&mut tallies.shares, Aggregate::Shares, entries, entry)?;
    add_entry(
        &mut tallies.share_lines,
        Aggregate::ShareLines,
        entries,
        entry,
    )?;
    add_entry(&mut tallies.uses, Aggregate::Uses, entries, entry)
}

/// Counts what an entry counts for others in each aggregate. An account counts for its sponsors alone.
pub fn add_to_all(
    tallies: &mut Tallies,
    entries: &PlacedEntries<'_>,
    entry: &LedgerEntry,
) -> Result<(), AllocError>
    requires { AreTerms entry.now.body }
    ensures { OnOk result ((which : AnAggregate) → Adds (tally_in tallies.old which) (tally_in tallies.new which)
        (λ k. counted_else (pools_in entries.now) which k entry.now)) }
{
    match &entry.body {
        LedgerEntryBody::Account(_) => add_payers(&mut tallies.sponsoring, entry),
        _ => add_each(tallies, entries, entry),
    }
}
