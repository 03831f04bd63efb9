//! The parts of a line.
ghost use Rattle.std.specs.Prelude.{◌≡◌};
ghost use Rattle.std.specs.Prelude.{option_map};
ghost use Rattle.ioc_commands.specs.Commands.{before, behind, behind_first};

/// Splits bytes before the first `separator`. The second part is empty if there is none.
#[inline(always)]
pub fn split_before(bytes: &[u8], separator: u8) -> (&[u8], &[u8])
    ensures front { result.0.now ≡ before separator bytes.now }
    ensures back { behind_first result.1.now ≡ behind separator bytes.now }
{
    let mut rest = bytes;
    let mut count = 0;
    while let [first, after @ ..] = rest {
        if *first == separator {
            return bytes.split_at(count);
        }
        count += 1;
        rest = after;
    }
    (bytes, &[])
}

/// Splits bytes at the first `separator`, which is in neither part. The second part is `None` if
/// there is none.
pub fn cut_at(bytes: &[u8], separator: u8) -> (&[u8], Option<&[u8]>)
    ensures front { result.0.now ≡ before separator bytes.now }
    ensures back { option_map (λ r. r.now) result.1 ≡ behind separator bytes.now }
{
    let mut rest = bytes;
    let mut count = 0;
    while let [first, after @ ..] = rest {
        if *first == separator {
            return (bytes.split_at(count).0, Some(after));
        }
        count += 1;
        rest = after;
    }
    (bytes, None)
}
