//! How many digits the text of a double shows.

ghost use Rattle.std.specs.Prelude.{◌≡◌, ◌≤◌, ◌↔◌, IsSome, IfSome};

use std::marker::Model;

/// The most digits that a text shows.
pub const MAX_DIGITS: u8 = 15;

/// A number of digits behind the point, 0 to 15, as PREC of a record has it.
///
/// ```text
/// Digits::new(3).map(Digits::count) == Some(3), Digits::new(16).is_none()
/// ```
#[derive(Clone, Copy, PartialEq, Eq, Debug)]
pub struct Digits {
    count: u8,
}

impl Model for Digits {
    ghost use Rattle.std.specs.Prelude.{ℕ, ◌≤◌};

    ghost Value = { ℕ };

    ghost view = { λ d. d.count };

    ghost invariant = { λ d. d.count ≤ 15 };

    ghost inverse = { λ n. record { count = n } };
}

impl Digits {
    /// Returns so many digits, or `None` above 15.
    pub fn new(count: u8) -> Option<Self>
        ensures range { IsSome result ↔ (count ≤ 15) }
        ensures value { IfSome result (λ d. d ≡ count) }
    {
        if count <= MAX_DIGITS {
            Some(Digits { count })
        } else {
            None
        }
    }

    /// Returns how many digits these are.
    pub fn count(self) -> u8
        ensures value { result ≡ self }
        ensures range { result ≤ 15 }
    {
        self.count
    }
}
