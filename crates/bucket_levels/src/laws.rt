//! What holds of the levels.

ghost use Rattle.bucket_levels.specs.InOrder.{StepsAreInOrder};
ghost use Rattle.bucket_levels.specs.Laws.{StepsRepresent};

/// Levels that represent the entries before a close represent those after it once they took its fresh bucket.
pub fn steps_represent()
    ensures { StepsRepresent }
{}

/// A close's step, merge by merge from the deepest level up, is the one that is said all at once, whatever is ready.
pub fn steps_are_in_order()
    ensures { StepsAreInOrder }
{}
