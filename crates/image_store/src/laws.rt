//! That what four files open to is one thing, as a contract.

ghost use Rattle.image_store.specs.Laws.{OpeningsAreOne, EachOpens};

/// Four files open to exactly one thing.
pub fn each_content_opens_to_one()
    ensures one { OpeningsAreOne }
    ensures some { EachOpens }
{}
