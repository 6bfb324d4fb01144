//! One walk over all entries: what is asked of each by itself, and what all of them count.

ghost use Rattle.std.specs.Prelude.{◌≢◌, ◌↔◌, All, None, IsTrue, IfOk, OnOk};
ghost use Rattle.std.specs.FinMap.{get};
ghost use Rattle.ledger_types.specs.Keys.{key_of};
ghost use Rattle.entry_map.specs.EntryMap.{EntryMap};
ghost use Rattle.close_rules.specs.legal_rules.Legal.{AreLinesAuthorized};
ghost use Rattle.image_rules.specs.Holdings.{traded_keys};
ghost use Rattle.image_rules.specs.Surveys.{KeepsRanges, IsAloneInRange, IsKnown, AreStillApart, IsEmptySurvey};
ghost use Rattle.image_rules.specs.Surveys.{IsWalkedOver, Surveys};
ghost use Rattle.image_rules.specs.Terms.{AreTerms};

use crate::dated::is_body_dated;
use crate::flags::both;
use crate::holdings::{holdings_of, no_holdings};
use crate::lumens::lumens_in;
use crate::offer_ids::is_id_new;
use crate::owners::is_owned;
use crate::pool_ranges::has_pool_id;
use crate::pools::is_filled_or_empty;
use crate::ranges::is_entry_in_range;
use crate::sponsorship::do_reserves_fit;
use crate::subentries::are_subentries_few;
use crate::tallies::{Tallies, add_to_all, no_tallies};
use ledger_types::{AccountId, LedgerEntry, LedgerEntryBody, LedgerHeader};
use level_entries::PlacedEntries;
use std::alloc::{AllocError, Global};
use std::collections::BTreeSet;

/// What a walk over entries found that are all in their ranges.
#[derive(Drop)]
pub struct Survey {
    /// Whether what each entry needs exists.
    pub owned: bool,
    /// Whether no two offers have the same id.
    pub apart: bool,
    /// Whether each account has at most 1000 subentries.
    pub few: bool,
    /// Whether each account's subentries and the reserves that it pays fit 32 bits together.
    pub fitting: bool,
    /// Whether each pool has both reserves and shares, or none of the three.
    pub filled: bool,
    /// The ids of the offers, as long as they are distinct.
    pub ids: BTreeSet<i64>,
    /// An account that exists.
    pub known: Option<AccountId>,
    /// What the entries count.
    pub tallies: Tallies,
}

/// Whether an entry is in its ranges, but for what other entries say.
fn is_alone_in_range(header: &LedgerHeader, entry: &LedgerEntry) -> Result<bool, AllocError>
    ensures { IfOk result (λ kept. IsTrue kept ↔ IsAloneInRange header.now entry.now) }
{
    let range = is_entry_in_range(header.id_pool, entry);
    let dated = is_body_dated(
        header.ledger_version,
        header.ledger_seq,
        header.scp_value.close_time,
        &entry.body,
    );
    let named = has_pool_id(header.scp_value.upgrades.allocator(), &entry.body)?;
    Ok(range && dated && named)
}

/// Whether an entry keeps the rule of ranges among others, by whether the lines that it trades in are authorised.
fn keeps_ranges(
    header: &LedgerHeader,
    authorized: bool,
    entry: &LedgerEntry,
) -> Result<bool, AllocError>
    ensures { (m : EntryMap) → (IsTrue authorized ↔ AreLinesAuthorized m entry.now.body)
        → IfOk result (λ kept. IsTrue kept ↔ KeepsRanges header.now m entry.now) }
{
    let alone = is_alone_in_range(header, entry)?;
    Ok(both(alone, authorized))
}

/// Whether ids of offers are still distinct with that of an entry, if it is an offer.
fn are_still_apart(
    apart: bool,
    ids: &mut BTreeSet<i64>,
    body: &LedgerEntryBody,
) -> Result<bool, AllocError>
    ensures { IfOk result (λ still. AreStillApart apart ids.old ids.new body.now still) }
{
    if !apart {
        return Ok(false);
    }
    is_id_new(ids, body)
}

/// Walks over one entry more, of which it is known whether what it trades in exists.
fn walk_over(
    survey: &mut Survey,
    entries: &PlacedEntries<'_>,
    traded: bool,
    entry: &LedgerEntry,
) -> Result<(), AllocError>
    requires there { get entries.now (key_of entry.now) ≢ None }
    requires known { IsKnown entries.now survey.old.known }
    requires traded { IsTrue traded ↔ All (λ q. get entries.now q ≢ None) (traded_keys entry.now.body) }
    requires terms { AreTerms entry.now.body }
    ensures { OnOk result (IsWalkedOver entries.now entry.now survey.old survey.new) }
{
    let owned = is_owned(entries, &mut survey.known, traded, entry)?;
    survey.owned = both(survey.owned, owned);
    survey.apart = are_still_apart(survey.apart, &mut survey.ids, &entry.body)?;
    survey.few = both(survey.few, are_subentries_few(&entry.body));
    survey.fitting = both(survey.fitting, do_reserves_fit(&entry.body));
    survey.filled = both(survey.filled, is_filled_or_empty(&entry.body));
    add_to_all(&mut survey.tallies, entries, entry)
}

/// A survey of no entries.
fn no_survey(alloc: Global) -> Survey
    ensures { IsEmptySurvey result }
{
    Survey {
        owned: true,
        apart: true,
        few: true,
        fitting: true,
        filled: true,
        ids: BTreeSet::new(alloc),
        known: None,
        tallies: no_tallies(alloc),
    }
}

/// What a walk over all entries finds, and the lumens that they hold, in units of 10^-7; `None` where an entry isn't in
/// its ranges. The sum of all balances may pass 64 bits.
pub fn survey_of(
    header: &LedgerHeader,
    entries: &PlacedEntries<'_>,
) -> Result<Option<(Survey, i128)>, AllocError>
    ensures { IfOk result (Surveys header.now entries.now) }
{
    let alloc = header.scp_value.upgrades.allocator();
    let mut survey = no_survey(alloc);
    let mut known = no_holdings(alloc);
    let mut lumens = 0i128;
    for index in 0..entries.len() {
        let entry = entries.entry(index)?;
        let held = holdings_of(entries, &mut known, &entry.body)?;
        let kept = keeps_ranges(header, held.authorized, &entry)?;
        if !kept {
            return Ok(None);
        }
        walk_over(&mut survey, entries, held.there, &entry)?;
        lumens += i128::from(lumens_in(&entry.body));
    }
    Ok(Some((survey, lumens)))
}
