//! Tests that hold of all entries so far.

ghost use Rattle.std.specs.Prelude.{◌↔◌, IsTrue};

/// Whether two tests hold.
pub fn both(first: bool, second: bool) -> bool
    ensures { IsTrue result ↔ (IsTrue first × IsTrue second) }
{
    first && second
}
