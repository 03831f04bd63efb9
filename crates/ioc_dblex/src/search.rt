//! Searches for a byte.
ghost use Rattle.std.specs.Prelude.{◌≡◌};
ghost use Rattle.ioc_dblex.specs.Macros.{front_of, back_of, lacks};

use memchr::memchr;

/// Splits the bytes before the first occurrence of this one from those from it on.
pub fn split_at_byte(c: u8, bytes: &[u8]) -> (&[u8], &[u8])
    ensures front { result.0.now ≡ front_of c bytes.now }
    ensures back { result.1.now ≡ back_of c bytes.now }
{
    match memchr(c, bytes) {
        Some(place) => bytes.split_at(place),
        None => (bytes, &[]),
    }
}

/// Returns whether this byte doesn't occur.
pub fn lacks(c: u8, bytes: &[u8]) -> bool
    ensures { result ≡ lacks c bytes.now }
{
    memchr(c, bytes).is_none()
}
