//! What is published, as its readers see it.

ghost use Rattle.std.specs.Prelude.{◌≡◌, ℕ, Option, IfOk};

use std::alloc::AllocError;

/// A view: a number of its own, and what it finds at a key.
pub trait Lookup {
    type Key;

    type Entry: Drop;

    ghost seq_of: { Self → ℕ };

    // What may be found at a key.
    ghost finds: { Self → Self.Key → Option Self.Entry → Type 0 };

    /// The view's own number.
    fn seq(&self) -> u32
        ensures { result ≡ seq_of self.now };

    /// What it has at a key.
    fn find(&self, key: &Self::Key) -> Result<Option<Self::Entry>, AllocError>
        ensures { IfOk result (finds self.now key.now) };
}

/// What a read answers: the index in the list of the view that was read, that view's own number, and the entry.
#[derive(Drop)]
pub struct Read<E> {
    pub number: u64,
    pub seq: u32,
    pub entry: Option<E>,
}
