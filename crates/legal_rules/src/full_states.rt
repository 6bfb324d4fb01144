//! Laws of one small state with an entry of every kind.

ghost use Rattle.legal_rules.specs.FullStates.{FullStateIsLegal, RulesBind, BoundsAreRounded};

/// A state with an entry of every kind is legal: all sums of the rules are above 0 in it.
pub fn full_state_is_legal()
    ensures { FullStateIsLegal }
{}

/// Small changes of it break a rule each.
pub fn rules_bind()
    ensures { RulesBind }
{}

/// What offers of some amounts and prices bind.
pub fn bounds_are_rounded()
    ensures { BoundsAreRounded }
{}
