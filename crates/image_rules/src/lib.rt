//! The rules of a start image that are of its entries, judged in their order.
#![tactic(auto)]

mod aggregates;
mod agreement;
mod claimables;
mod counts;
mod dated;
mod existing_pools;
mod fields;
mod flags;
mod holders;
mod holdings;
mod liabilities;
mod lines;
mod lumens;
mod offer_ids;
mod offers;
mod owners;
mod parts;
mod pool_ranges;
mod pools;
mod ranges;
mod room;
mod shares;
mod signers;
mod sponsorship;
mod subentries;
mod survey;
mod tallies;
mod verdict;

pub use fields::are_fields_in_range;
pub use verdict::first_broken;
