//! Byte strings of fixed capacity, which never allocate.

ghost use Rattle.std.specs.Prelude.{◌≡◌, ◌≤◌, ◌↔◌, ◌<◌, ◌+◌, List, ℕ, [], ◌++◌, ◌∷◌, length, take, nat_eq, IsSome, IfSome};
ghost use Rattle.std.specs.Ordering.{nat_cmp, as_partial_cmp};
ghost use Rattle.std.specs.Hash as fed;
ghost use Rattle.std.specs.Cmp.Lexicographic.{pointwise, slice_cmp, bytes_decides, nat_list_eq_equiv, nat_list_cmp_total};
ghost use Rattle.std.specs.Cmp.{partial_equiv_from_equiv, partial_order_from_own_ties};
ghost use Rattle.std.specs.Cmp.Rules.{comparing, hashing};
ghost use Rattle.std.proofs.Common.{ap, rules};

use indexmap::Equivalent;
use std::cmp::Ordering;
use std::hash::{Hash, Hasher};
use std::marker::Model;

/// A byte string of at most `CAP` bytes, which is compared, ordered and hashed by its bytes.
#[derive(Clone, Copy)]
pub struct Short<const CAP: usize> {
    bytes: [u8; CAP],
    len: usize,
}

impl<const CAP: usize> Model for Short<CAP> {
    ghost use Rattle.std.specs.Prelude.{◌≡◌, ◌≤◌, ◌-◌, ◌++◌, List, ℕ, length, take, drop, replicate};
    ghost use Rattle.std.proofs.Common.{arith, take-append-drop, length-take-le};

    ghost Value = { List ℕ };

    ghost view = { λ s. take s.len s.bytes };

    ghost invariant = { λ s. (s.len ≤ CAP) × (length s.bytes ≡ CAP) × (drop s.len s.bytes ≡ replicate (CAP - s.len) 0) };

    ghost use Rattle.ioc_values.specs.Padding.{padded_again};

    ghost inverse = { λ xs. record { bytes = xs ++ replicate (CAP - length xs) 0; len = length xs } };

    ghost inverse_ok = { λ s h i. record {
      bytes = padded_again CAP s.len s.bytes (omega (arith, h.0, h.1)) h.2 i;
      len = length-take-le s.len s.bytes (omega (arith, h.0, h.1)) i;
    } };
}

impl<const CAP: usize> Short<CAP> {
    /// Creates an empty string.
    pub fn new() -> Self
        ensures { result ≡ [] }
    {
        Short {
            bytes: [0; CAP],
            len: 0,
        }
    }

    /// Returns a string of these bytes, or `None` if they don't fit.
    pub fn from_slice(bytes: &[u8]) -> Option<Self>
        ensures fits { IsSome result ↔ (length bytes.now ≤ CAP) }
        ensures value { IfSome result (λ s. s ≡ bytes.now) }
    {
        if bytes.len() > CAP {
            return None;
        }
        Some(Self::cut(bytes))
    }

    /// Returns a string of the first of these bytes, as many as fit.
    pub fn cut(bytes: &[u8]) -> Self
        ensures { result ≡ take CAP bytes.now }
    {
        let len = bytes.len().min(CAP);
        let mut all = [0; CAP];
        all[..len].copy_from_slice(&bytes[..len]);
        Short { bytes: all, len }
    }

    /// Returns the bytes.
    pub fn as_slice(&self) -> &[u8]
        ensures value { result.now ≡ self.now }
        ensures fits { length result.now ≤ CAP }
    {
        &self.bytes[..self.len]
    }

    /// Appends a byte, or drops it if the string is full.
    pub fn push_cut(&mut self, b: u8)
        ensures { self.new ≡ take CAP (self.old ++ b ∷ []) }
    {
        if self.len < CAP {
            self.bytes[self.len] = b;
            self.len += 1;
        }
    }

    /// Removes all bytes.
    pub fn clear(&mut self)
        ensures { self.new ≡ [] }
    {
        *self = Self::new();
    }

    /// Appends a byte. The string must not be full.
    pub fn push(&mut self, b: u8)
        requires { length self.old < CAP }
        ensures { self.new ≡ self.old ++ b ∷ [] }
    {
        self.push_cut(b);
    }

    /// Appends the bytes. They must fit.
    pub fn extend(&mut self, bytes: &[u8])
        requires { length self.old + length bytes.now ≤ CAP }
        ensures { self.new ≡ self.old ++ bytes.now }
    {
        for b in bytes {
            self.push(*b);
        }
    }
}

impl<const CAP: usize> PartialEq for Short<CAP> {
    ghost eq = { pointwise nat_eq };

    ghost laws = { partial_equiv_from_equiv nat_list_eq_equiv };

    fn eq(&self, other: &Self) -> bool {
        self.as_slice() == other.as_slice()
    }
}

impl<const CAP: usize> Eq for Short<CAP> {
    ghost laws = { nat_list_eq_equiv };
}

impl<const CAP: usize> Ord for Short<CAP> {
    ghost cmp = { slice_cmp nat_cmp };

    ghost total = { nat_list_cmp_total };

    ghost matches_partial_cmp = { Prim.search (comparing, rules) };

    ghost matches_eq = { Prim.search (comparing, rules) };

    fn cmp(&self, other: &Self) -> Ordering {
        self.as_slice().cmp(other.as_slice())
    }
}

impl<const CAP: usize> PartialOrd for Short<CAP> {
    ghost partial_cmp = { as_partial_cmp (slice_cmp nat_cmp) };

    ghost laws = { partial_order_from_own_ties (Prim.search (comparing, rules)) (Prim.search (comparing, rules)) };

    fn partial_cmp(&self, other: &Self) -> Option<Ordering> {
        Some(self.cmp(other))
    }
}

impl<const CAP: usize> Hash for Short<CAP> {
    ghost hash_input = { fed.slice fed.u8 };

    ghost respects_eq = { Prim.search (hashing, rules) };

    fn hash<H: Hasher>(&self, state: &mut H) {
        self.as_slice().hash(state);
    }
}

/// A key of a map is equivalent to its bytes, so that it can be looked up by reference, without a
/// copy.
impl<const CAP: usize> Equivalent<Short<CAP>> for &[u8] {
    ghost equivalent = { λ q k. pointwise nat_eq q.now k };

    ghost respects_hash = { λ q k h. ap (fed.slice fed.u8) ((bytes_decides q.now k).0 h) };

    ghost respects_eq = { λ q x y. nat_list_eq_equiv.congr q.now x y };

    fn equivalent(&self, key: &Short<CAP>) -> bool {
        *self == key.as_slice()
    }
}

/// The maximum length of a text value in bytes, as a DBF_STRING field holds it.
pub const MAX_TEXT_BYTES: usize = 39;

/// The maximum length of a record name in bytes.
pub const MAX_NAME_BYTES: usize = 60;

/// The maximum length of a field name in bytes.
pub const MAX_FIELD_NAME_BYTES: usize = 8;

/// A text value.
pub type Text = Short<MAX_TEXT_BYTES>;

/// A record name.
pub type Name = Short<MAX_NAME_BYTES>;

/// A field name.
pub type FieldName = Short<MAX_FIELD_NAME_BYTES>;
