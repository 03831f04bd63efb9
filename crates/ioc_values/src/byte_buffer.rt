//! A byte buffer of fixed capacity, which is passed by reference and never copied.

ghost use Rattle.std.specs.Prelude.{◌≡◌, ◌↔◌, ◌≤◌, ◌<◌, ◌+◌, IsTrue, [], ◌++◌, ◌∷◌, length, take};

use std::marker::Model;

/// A buffer of at most `CAP` bytes; contracts see it as these bytes. It never allocates, and
/// clearing it takes constant time.
#[derive(Drop)]
pub struct ByteBuffer<const CAP: usize> {
    bytes: [u8; CAP],
    len: usize,
}

impl<const CAP: usize> Model for ByteBuffer<CAP> {
    ghost use Rattle.std.specs.Prelude.{◌≡◌, ◌≤◌, List, ℕ, length, take};

    ghost Value = { List ℕ };

    ghost view = { λ r. take r.len r.bytes };

    ghost invariant = { λ r. (r.len ≤ CAP) × (length r.bytes ≡ CAP) };
}

impl<const CAP: usize> ByteBuffer<CAP> {
    /// Creates an empty buffer.
    pub fn new() -> Self
        ensures { result ≡ [] }
    {
        ByteBuffer {
            bytes: [0; CAP],
            len: 0,
        }
    }

    /// Returns the bytes.
    pub fn as_slice(&self) -> &[u8]
        ensures value { result.now ≡ self.now }
        ensures fits { length result.now ≤ CAP }
    {
        &self.bytes[..self.len]
    }

    /// Returns whether the buffer is empty.
    pub fn is_empty(&self) -> bool
        ensures { IsTrue result ↔ (self.now ≡ []) }
    {
        self.len == 0
    }

    /// Removes all bytes.
    pub fn clear(&mut self)
        ensures { self.new ≡ [] }
    {
        self.len = 0;
    }

    /// Appends a byte. The buffer must not be full.
    pub fn push(&mut self, b: u8)
        requires { length self.old < CAP }
        ensures { self.new ≡ self.old ++ b ∷ [] }
    {
        self.bytes[self.len] = b;
        self.len += 1;
    }

    /// Appends the bytes. They must fit.
    pub fn extend(&mut self, bytes: &[u8])
        requires { length self.old + length bytes.now ≤ CAP }
        ensures { self.new ≡ self.old ++ bytes.now }
    {
        let start = self.len;
        let end = start + bytes.len();
        let all = &mut self.bytes[..];
        all[start..end].copy_from_slice(bytes);
        self.len = end;
    }

    /// Appends as many of the bytes as fit.
    pub fn extend_cut(&mut self, bytes: &[u8])
        ensures { self.new ≡ take CAP (self.old ++ bytes.now) }
    {
        let count = bytes.len().min(CAP - self.len);
        self.extend(&bytes[..count]);
    }
}
