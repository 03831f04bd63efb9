//! Time stamps as texts.
ghost use Rattle.ioc_listing.specs.Moments.{IsMoment};

use arrayvec::ArrayString;
use jiff::Timestamp;
use jiff::fmt::temporal::DateTimePrinter;
use std::alloc::{AllocError, Global};

/// Returns the name of a journal that begins at this moment, in UTC. The names of later ones come
/// behind it in the order of their letters.
///
/// ```rust
/// // 1970-01-01T00-00-01.500000000Z.journal
/// let name = file_name(rt.alloc(), 1_500_000_000)?;
/// ```
///
/// # Errors
///
/// [`AllocError`] if allocation fails.
pub fn file_name(alloc: Global, nanoseconds: u64) -> Result<String, AllocError> {
    let mut name = String::new(alloc);
    for letter in moment_text(nanoseconds).as_str().chars() {
        name.push(if letter == ':' { '-' } else { letter })?;
    }
    name.push_str(".journal")?;
    Ok(name)
}

/// Returns the instant in UTC that is this many nanoseconds after 1970-01-01 00:00 UTC, as in RFC
/// 3339 with nine digits of the second's fraction.
///
/// ```rust
/// // 1970-01-01T00:00:01.500000000Z
/// let text = moment_text(1_500_000_000);
/// ```
pub fn moment_text(nanoseconds: u64) -> ArrayString<33>
    ensures { IsMoment nanoseconds result.bytes }
{
    let Ok(instant) = Timestamp::from_nanosecond(i128::from(nanoseconds)) else {
        unreachable!()
    };
    DateTimePrinter::new()
        .precision(Some(9))
        .timestamp_text(instant.to_plain())
}
