//! At most 64 bytes that lie in the value itself.

ghost use Rattle.std.specs.Prelude.{◌≡◌, ◌≤◌, ◌↔◌, length, IsSome, IfSome, Some, nat_eq, refl};
ghost use Rattle.std.specs.Cmp.{partial_equiv_from_equiv};
ghost use Rattle.std.specs.Cmp.Lexicographic.{pointwise, nat_list_eq_equiv, nat_list_cmp_total, texts_po, texts_ties};
ghost use Rattle.item_list.specs.Bytes.{IsBytes};
ghost use Rattle.ledger_types.specs.Bytes.{bytes_cmp};

use std::cmp::Ordering;
use std::marker::Model;

/// At most 64 bytes (opaque<64> of RFC 4506, 4.10), in the value itself. Contracts see them as a list. They are
/// compared one by one, and where one text begins another, the shorter one comes first.
#[derive(Clone, Copy)]
pub struct Bytes64 {
    // zeros from `len` on, so that equal texts are equal values
    bytes: [u8; 64],
    len: u8,
}

impl Model for Bytes64 {
    ghost use Rattle.std.specs.Prelude.{ℕ, List, length, take};
    ghost use Rattle.std.specs.Coded.{coded_ℕ, coded_list};
    ghost use Rattle.ledger_types.specs.Bytes.{padded, IsPadded};
    ghost use Rattle.ledger_types.specs.Padding.{padded_again, length_again};

    ghost Value = { List ℕ };

    ghost coded = { coded_list coded_ℕ };

    ghost view = { λ b. take b.len b.bytes };

    ghost invariant = { λ b. IsPadded b.bytes b.len };

    ghost inverse = { λ text. record { bytes = padded text; len = length text } };

    ghost inverse_ok = { λ b h i. record { bytes = padded_again h i; len = length_again h i } };
}

impl Bytes64 {
    /// The bytes of a slice, or `None` where it has more than 64.
    pub fn from_slice(slice: &[u8]) -> Option<Bytes64>
        ensures variant { IsSome result ↔ (length slice.now ≤ 64) }
        ensures some { IfSome result (λ text. text ≡ slice.now) }
    {
        if slice.len() > 64 {
            return None;
        }
        let mut bytes = [0; 64];
        bytes[..slice.len()].copy_from_slice(slice);
        Some(Bytes64 {
            bytes,
            len: slice.len() as u8,
        })
    }

    /// The bytes.
    pub fn as_slice(&self) -> &[u8]
        ensures value { result.now ≡ self.now }
        ensures fits { length self.now ≤ 64 }
        ensures bytes { IsBytes self.now }
    {
        &self.bytes[..self.len as usize]
    }
}

impl PartialEq for Bytes64 {
    ghost eq = { pointwise nat_eq };

    ghost laws = { partial_equiv_from_equiv nat_list_eq_equiv };

    fn eq(&self, other: &Bytes64) -> bool {
        self.as_slice() == other.as_slice()
    }
}

impl Eq for Bytes64 {
    ghost laws = { nat_list_eq_equiv };
}

impl PartialOrd for Bytes64 {
    ghost partial_cmp = { λ a b. Some (bytes_cmp a b) };

    ghost laws = { texts_po };

    fn partial_cmp(&self, other: &Bytes64) -> Option<Ordering> {
        Some(self.cmp(other))
    }
}

impl Ord for Bytes64 {
    ghost cmp = { bytes_cmp };

    ghost total = { nat_list_cmp_total };

    ghost matches_partial_cmp = { λ a b. refl };

    ghost matches_eq = { texts_ties };

    fn cmp(&self, other: &Bytes64) -> Ordering {
        self.as_slice().cmp(other.as_slice())
    }
}
