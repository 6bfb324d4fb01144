//! The hops that a search for the cheapest path makes, one after the other, over the ledger of an image.

use crate::stores::image_in;
use entry_map::Entries;
use ledger_close::Ledger;
use ledger_types::{Asset, Hash};
use op_payment::{Carried, receive};
use path_finder::{PathQuery, legal_states_are_crossable, read_path_query};
use sponsor_rules::Ctx;
use std::alloc::Global;
use tx_apply::ctx_of;
use xdr_core::Cursor;

/// What was seen of the paths.
#[derive(Clone, Copy)]
pub struct Served {
    /// How many paths were tried.
    pub tried: u64,
    /// How many had a cost.
    pub served: u64,
    /// The least cost.
    pub least: i64,
}

impl Served {
    /// No path yet.
    const fn nothing() -> Served {
        Served {
            tried: 0,
            served: 0,
            least: i64::MAX,
        }
    }

    /// One path more.
    fn see(&mut self, cost: Option<i64>) {
        self.tried = self.tried.saturating_add(1);
        if let Some(cost) = cost {
            self.served = self.served.saturating_add(1);
            self.least = self.least.min(cost);
        }
    }
}

/// Makes the hops of a path, and answers what it costs. None of the outer ones where memory is refused.
fn receive_along(
    alloc: Global,
    ledger: &Ledger,
    ctx: &Ctx,
    query: &PathQuery,
    path: &[Asset],
) -> Option<Option<i64>> {
    if query.amount < 0 {
        return None;
    }
    ledger.is_closing();
    legal_states_are_crossable();
    let mut entries = Entries::new(alloc, ledger).ok()?;
    let amount = Carried::set_out(alloc, query.amount);
    match receive(&mut entries, ctx, &query.send, path, &query.dest, amount).ok()? {
        Ok(needed) => Some(Some(needed.amount)),
        Err(_) => Some(None),
    }
}

/// Tries the paths by no candidate, by each alone, and by each two.
fn try_paths(alloc: Global, ledger: &Ledger, ctx: &Ctx, query: &PathQuery) -> Option<Served> {
    let mut seen = Served::nothing();
    let candidates = query.candidates.as_slice();
    seen.see(receive_along(alloc, ledger, ctx, query, &[])?);
    for first in candidates {
        seen.see(receive_along(alloc, ledger, ctx, query, &[*first])?);
    }
    for first in candidates {
        for second in candidates {
            if !first.is_same(second) {
                seen.see(receive_along(alloc, ledger, ctx, query, &[*first, *second])?);
            }
        }
    }
    Some(seen)
}

/// Opens the ledger of an image, and, where `calls` says so, makes the hops of all paths of a query.
pub fn pass_paths(alloc: Global, image: &[u8], query: &[u8], calls: bool) -> Option<Served> {
    let image = image_in(alloc, image)?;
    let ledger = Ledger::from_image(image, Hash([0; 32])).ok()?;
    let query = read_path_query(alloc, &mut Cursor::new(query)).ok()?;
    if !calls {
        return Some(Served::nothing());
    }
    let header = ledger.header();
    let close_time = header.scp_value.close_time;
    let ctx = ctx_of(alloc, header, close_time, header.id_pool, query.source, 0);
    try_paths(alloc, &ledger, &ctx, &query)
}
