//! The candidates of a query, each once.

ghost use Rattle.std.specs.Prelude.{◌≡◌, ◌≤◌, length, map, IfOk};
ghost use Rattle.std.specs.List.{IsDistinct};
ghost use Rattle.std.specs.Cmp.{on_equiv, partial_equiv_from_equiv};
ghost use Rattle.op_payment.specs.Paths.{is_same_asset};
ghost use Rattle.path_finder.specs.Hashing as hashing;
ghost use Rattle.path_finder.specs.Query as spec;

use indexmap::IndexSet;
use ledger_types::Asset;
use std::alloc::{AllocError, Global};
use std::hash::{Hash, Hasher};

/// An asset as a member of a set.
#[derive(Clone, Copy)]
struct Candidate(Asset);

impl PartialEq for Candidate {
    ghost eq = { λ a b. is_same_asset a.0 b.0 };

    ghost laws = { partial_equiv_from_equiv (on_equiv (λ c. c.0) hashing.same_equivalence) };

    fn eq(&self, other: &Candidate) -> bool {
        self.0.is_same(&other.0)
    }
}

impl Eq for Candidate {
    ghost laws = { on_equiv (λ c. c.0) hashing.same_equivalence };
}

impl Hash for Candidate {
    ghost hash_input = { λ candidate. hashing.hash_input candidate.0 };

    ghost respects_eq = { λ a b same. hashing.hashed_alike.fed a.0 b.0 same };

    fn hash<H: Hasher>(&self, state: &mut H) {
        match self.0 {
            Asset::Native => state.write_u8(0),
            Asset::Alphanum4 { code, issuer } => {
                code.hash(state);
                issuer.0.hash(state);
            }
            Asset::Alphanum12 { code, issuer } => {
                code.hash(state);
                issuer.0.hash(state);
            }
        }
    }
}

/// The assets of a set, in its order.
fn assets_of(alloc: Global, kept: &IndexSet<Candidate>) -> Result<Vec<Asset>, AllocError>
    ensures assets { IfOk result (λ assets. assets.items ≡ map (λ candidate. candidate.0) kept.now.keys) }
    ensures once { IsDistinct (λ a b. is_same_asset a.0 b.0) kept.now.keys }
{
    kept.iter().map(|candidate| candidate.0).collect(alloc)
}

/// Each asset once, at its first position.
pub fn distinct(alloc: Global, assets: &[Asset]) -> Result<Vec<Asset>, AllocError>
    ensures distinct { IfOk result (λ kept. kept.items ≡ spec.distinct assets.now) }
    ensures once { IfOk result (λ kept. IsDistinct is_same_asset kept.items) }
    ensures few { IfOk result (λ kept. length kept.items ≤ length assets.now) }
{
    let mut kept = IndexSet::new(alloc);
    for asset in assets {
        kept.insert(Candidate(*asset))?;
    }
    assets_of(alloc, &kept)
}
