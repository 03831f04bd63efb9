//! What shows that a record is watched, or is watched no more. Only the set that does so gives it out.
ghost use Rattle.std.specs.Prelude.{◌≡◌};

use ioc_names::RecordNo;
use std::marker::{Model, PhantomData};

/// That the set which has a record of the engine `B` watches it from now on. Contracts see the record's number.
#[derive(Drop)]
pub struct NowWatched<B> {
    number: RecordNo,
    of: PhantomData<B>,
}

impl<B> Model for NowWatched<B> {
    ghost use Rattle.std.specs.Prelude.{ℕ};

    ghost Value = { ℕ };

    ghost view = { λ w. w.number };
}

impl<B> NowWatched<B> {
    // The sign for a record.
    pub(crate) fn new(number: RecordNo) -> Self
        ensures { result ≡ number }
    {
        NowWatched {
            number,
            of: PhantomData,
        }
    }
}

/// That the set which has a record of the engine `B` watches it no more. Contracts see the record's number.
#[derive(Drop)]
pub struct NoMoreWatched<B> {
    number: RecordNo,
    of: PhantomData<B>,
}

impl<B> Model for NoMoreWatched<B> {
    ghost use Rattle.std.specs.Prelude.{ℕ};

    ghost Value = { ℕ };

    ghost view = { λ w. w.number };
}

impl<B> NoMoreWatched<B> {
    // The sign for a record.
    pub(crate) fn new(number: RecordNo) -> Self
        ensures { result ≡ number }
    {
        NoMoreWatched {
            number,
            of: PhantomData,
        }
    }
}
