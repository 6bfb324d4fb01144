//! Laws of what operations and books ask of entries: each legal state has it.

ghost use Rattle.op_laws.specs.Premises as spec;

use crate::steps::{
    settled_amounts, settled_in_range, settled_ready, settled_sound, underway_manageable,
};

/// Before an operation of a transaction the entries are what each of the nine `apply` of operations asks for.
pub fn operations_can_apply()
    ensures { spec.OperationsCanApply }
{
    settled_ready();
    settled_in_range();
    settled_sound();
    settled_amounts();
    underway_manageable();
}

/// An account's offers can be listed in each legal state.
pub fn legal_is_numbered()
    ensures { spec.LegalIsNumbered }
{}

/// Books can be asked for in each legal state.
pub fn legal_offers_are_sound()
    ensures { spec.LegalOffersAreSound }
{}
