//! Laws of start images.

ghost use Rattle.existence_laws.specs.Existence as spec;

/// An image, of which the files are bytes, is judged.
pub fn each_image()
    ensures { spec.EachImage }
{}
