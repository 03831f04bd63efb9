//! Numbers of puts with notification.
ghost use Rattle.std.specs.Prelude.{◌≡◌};

use std::marker::Model;

/// The number of a put with notification: 1, 2, 3 and so on, in the order in which they are taken.
#[derive(Clone, Copy, PartialEq, Eq, Debug)]
pub struct NotifyId {
    number: u64,
}

impl Model for NotifyId {
    ghost use Rattle.std.specs.Prelude.{ℕ};

    ghost Value = { ℕ };

    ghost view = { λ n. n.number };

    ghost inverse = { λ n. record { number = n } };
}

impl NotifyId {
    /// Creates the number.
    pub fn new(number: u64) -> Self
        ensures { result ≡ number }
    {
        NotifyId { number }
    }

    /// Returns the number as it is printed.
    pub fn number(self) -> u64
        ensures { result ≡ self }
    {
        self.number
    }
}
