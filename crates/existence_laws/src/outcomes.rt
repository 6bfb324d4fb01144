//! Laws of runs.

ghost use Rattle.existence_laws.specs.Existence as spec;

use crate::closes::each_close;
use crate::images::each_image;
use close_laws::closes::{next_is_closing, taken_is_closable};
use image_store::laws::each_content_opens_to_one;

/// The records after a state yield something.
pub fn each_run()
    ensures { spec.EachRun }
{
    each_close();
    taken_is_closable();
    next_is_closing();
}

/// An input has an outcome on each network.
pub fn each_outcome()
    ensures { spec.EachOutcome }
{
    each_run();
    each_image();
}

/// Each content of a volume opens to a state from which a ledger closes, or has a fault at a file and offset, or no
/// store.
pub fn each_content()
    ensures { spec.EachContent }
{
    each_close();
    each_image();
    taken_is_closable();
    next_is_closing();
    each_content_opens_to_one();
}
