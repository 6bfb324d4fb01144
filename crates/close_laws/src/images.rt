//! Laws of start images.

ghost use Rattle.close_laws.specs.Images as spec;

/// An image is judged to be one thing.
pub fn images_are_one()
    ensures { spec.ImagesAreOne }
{}

/// The image of a ledger's state can be written, and represents that state.
pub fn images_represent_states()
    ensures { spec.ImagesRepresentStates }
{}
