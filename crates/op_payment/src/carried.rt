//! How far an amount has come along a path.

ghost use Rattle.std.specs.Prelude.{◌≡◌, ◌++◌, ◌≤◌, IfOk};
ghost use Rattle.op_payment.specs.PathCalls as calls;
ghost use Rattle.trade_cross.specs.HopLaws.{crossings_in};

use item_list::ItemList;
use ledger_types::ClaimAtom;
use std::alloc::{AllocError, Global};
use trade_cross::{Crossed, MOST_CROSSINGS};

/// How far an amount has come along a path.
#[derive(Drop)]
pub struct Carried {
    /// What is needed of the asset at hand, or what is on its way in it, at least 0.
    pub amount: i64,
    /// How many offers may still be crossed, on all hops together.
    pub crossings: u32,
    /// What was traded, in the direction of the payment.
    pub atoms: ItemList<ClaimAtom>,
}

impl Carried {
    /// An amount at the end of a path at which it sets out.
    pub fn set_out(alloc: Global, amount: i64) -> Carried
        ensures { result ≡ calls.set_out_of amount }
    {
        Carried {
            amount,
            crossings: MOST_CROSSINGS,
            atoms: ItemList::new(alloc),
        }
    }

    /// Back by one hop: what was sent is what is needed next.
    pub fn needed_before(self, done: Crossed) -> Result<Carried, AllocError>
        requires { calls.DoCrossingsFit self done }
        ensures { IfOk result (λ carried. carried ≡ calls.needed_before_of self done) }
    {
        Ok(Carried {
            amount: done.sheep,
            crossings: self.crossings - crossings_in(done.atoms.as_slice()),
            atoms: joined(done.atoms, self.atoms.as_slice())?,
        })
    }

    /// On by one hop: what was received is what is sent next.
    pub fn carried_on(self, done: Crossed) -> Result<Carried, AllocError>
        requires { calls.DoCrossingsFit self done }
        ensures { IfOk result (λ carried. carried ≡ calls.carried_on_of self done) }
    {
        Ok(Carried {
            amount: done.wheat,
            crossings: self.crossings - crossings_in(done.atoms.as_slice()),
            atoms: joined(self.atoms, done.atoms.as_slice())?,
        })
    }
}

/// Two lists of atoms, one after the other.
fn joined(
    first: ItemList<ClaimAtom>,
    second: &[ClaimAtom],
) -> Result<ItemList<ClaimAtom>, AllocError>
    ensures { IfOk result (λ atoms. atoms ≡ first ++ second.now) }
{
    let mut items = first.into_vec();
    items.extend_from_slice(second)?;
    Ok(ItemList::from_vec(items))
}

/// How many of the atoms are offers that were crossed; a pool's is none.
fn crossings_in(atoms: &[ClaimAtom]) -> u32
    requires { crossings_in atoms.now ≤ 4294967295 }
    ensures { result ≡ crossings_in atoms.now }
{
    match atoms.split_first() {
        None => 0,
        Some((ClaimAtom::LiquidityPool { .. }, others)) => crossings_in(others),
        Some((_, others)) => 1 + crossings_in(others),
    }
}
