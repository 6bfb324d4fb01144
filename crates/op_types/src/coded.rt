//! Values that are encoded as a number.

ghost use Rattle.std.specs.Prelude.{◌≡◌, ℤ, List, find};
ghost use Rattle.std.specs.Ordering.{int_eq};

/// The values of a union by their discriminants.
pub trait Coded: Drop {
    // The values that have nothing after their number.
    ghost values: { List Self };

    // The number of each value.
    ghost number: { Self → ℤ };

    /// The value that has nothing after a number, where there is one.
    fn from_code(code: i32) -> Option<Self>
        ensures { result ≡ find (λ value. int_eq code (number value)) values };

    /// The value's number.
    fn code(&self) -> i32
        ensures { result ≡ number self.now };
}
