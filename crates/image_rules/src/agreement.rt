//! Whether accounts, lines and pools state what is counted for them, in all aggregates at once.

ghost use Rattle.std.specs.Prelude.{◌≡◌, ◌<◌, length, slice_get, Some, IsTrue, IfOk};
ghost use Rattle.std.specs.FinMap.{entries, values};
ghost use Rattle.ledger_types.specs.declared.entry.LedgerEntry.{LedgerEntry as AnEntry};
ghost use Rattle.close_rules.specs.EntryRules.{AreOwned};
ghost use Rattle.image_rules.specs.declared.aggregates.Aggregate.{Aggregate as AnAggregate};
ghost use Rattle.image_rules.specs.Aggregates.{AreCounts};
ghost use Rattle.image_rules.specs.Tallies.{tally_in, agrees_in, StillAgrees, IsAgreement};

use crate::aggregates::{Aggregate, agrees};
use crate::counts::Tally;
use crate::tallies::Tallies;
use ledger_types::LedgerEntry;
use level_entries::PlacedEntries;
use std::alloc::AllocError;

/// In which aggregates each account, each line and each pool states what is counted for it.
#[derive(Clone, Copy)]
pub struct Agreement {
    pub subentries: bool,
    pub sponsoring: bool,
    pub sponsored: bool,
    pub selling: bool,
    pub buying: bool,
    pub shares: bool,
    pub share_lines: bool,
    pub uses: bool,
}

/// Whether an entry agrees in an aggregate, where those before it did.
fn still_agrees(before: bool, tally: &Tally, aggregate: Aggregate, entry: &LedgerEntry) -> bool
    ensures { StillAgrees tally.now aggregate entry.now before result }
{
    if !before {
        return false;
    }
    agrees(tally, aggregate, entry)
}

/// In which aggregates an entry agrees and those before it did.
fn with_entry(before: Agreement, tallies: &Tallies, entry: &LedgerEntry) -> Agreement
    ensures { (which : AnAggregate)
        → StillAgrees (tally_in tallies.now which) which entry.now (agrees_in before which) (agrees_in result which) }
{
    Agreement {
        subentries: still_agrees(
            before.subentries,
            &tallies.subentries,
            Aggregate::Subentries,
            entry,
        ),
        sponsoring: still_agrees(
            before.sponsoring,
            &tallies.sponsoring,
            Aggregate::Sponsoring,
            entry,
        ),
        sponsored: still_agrees(
            before.sponsored,
            &tallies.sponsored,
            Aggregate::Sponsored,
            entry,
        ),
        selling: still_agrees(before.selling, &tallies.selling, Aggregate::Selling, entry),
        buying: still_agrees(before.buying, &tallies.buying, Aggregate::Buying, entry),
        shares: still_agrees(before.shares, &tallies.shares, Aggregate::Shares, entry),
        share_lines: still_agrees(
            before.share_lines,
            &tallies.share_lines,
            Aggregate::ShareLines,
            entry,
        ),
        uses: still_agrees(before.uses, &tallies.uses, Aggregate::Uses, entry),
    }
}

/// In which aggregates the entry at an index agrees and those before it did. An offer states nothing that is counted,
/// and needn't be decoded.
fn with_entry_at(
    before: Agreement,
    tallies: &Tallies,
    placed: &PlacedEntries<'_>,
    index: usize,
) -> Result<Agreement, AllocError>
    requires { index < length (entries placed.now) }
    ensures { IfOk result (λ after. (which : AnAggregate) (e : AnEntry) → slice_get (values placed.now) index ≡ Some e
        → StillAgrees (tally_in tallies.now which) which e (agrees_in before which) (agrees_in after which)) }
{
    if placed.is_offer(index) {
        return Ok(before);
    }
    let entry = placed.entry(index)?;
    Ok(with_entry(before, tallies, &entry))
}

/// The agreement of no entries.
const fn whole_agreement() -> Agreement
    ensures { (which : AnAggregate) → IsTrue (agrees_in result which) }
{
    Agreement {
        subentries: true,
        sponsoring: true,
        sponsored: true,
        selling: true,
        buying: true,
        shares: true,
        share_lines: true,
        uses: true,
    }
}

/// In which aggregates all entries state what is counted for them.
pub fn agreement_of(tallies: &Tallies, entries: &PlacedEntries<'_>) -> Result<Agreement, AllocError>
    requires owned { AreOwned entries.now }
    requires counted { (which : AnAggregate) → AreCounts which entries.now (tally_in tallies.now which) }
    ensures { IfOk result (IsAgreement entries.now) }
{
    let mut agreement = whole_agreement();
    for index in 0..entries.len() {
        agreement = with_entry_at(agreement, tallies, entries, index)?;
    }
    Ok(agreement)
}
