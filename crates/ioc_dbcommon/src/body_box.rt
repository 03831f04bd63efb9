//! A body on the heap, which contracts see as the body.
ghost use Rattle.std.specs.Prelude.{◌≡◌, IfOk};
ghost use Rattle.std.specs.Borrow.{Lends, sem};

use std::alloc::{AllocError, Global};
use std::marker::Model;

/// A body that can be made with the defaults of a new record.
pub trait Fresh {
    ghost new_one: { Self };

    /// Creates a new body with the defaults.
    fn fresh() -> Self
        ensures { result ≡ new_one };
}

/// A body on the heap, so that records of other types take less memory. Moving it only moves a
/// pointer.
#[derive(Drop)]
pub struct BodyBox<B> {
    place: Box<B>,
}

impl<B> Model for BodyBox<B> {
    ghost Value = { B };

    ghost view = { λ k. k.place.value };
}

impl<B> BodyBox<B> {
    ghost use Rattle.ioc_dbcommon.specs.contracts.body_box.BodyBox.{the_row};

    /// Creates a new body with the defaults.
    pub fn fresh(alloc: Global) -> Result<Self, AllocError>
    where
        B: Fresh + Drop,
        ensures { IfOk result (λ k. k ≡ B.new_one) }
    {
        BodyBox::new(alloc, B::fresh())
    }

    /// Moves a body to the heap.
    ///
    /// # Errors
    ///
    /// [`AllocError`] if allocation fails.
    pub fn new(alloc: Global, body: B) -> Result<Self, AllocError>
    where
        B: Drop,
        ensures { IfOk result (λ k. k ≡ body) }
    {
        let place = Box::new(alloc, body)?;
        Ok(BodyBox { place })
    }

    pub fn get(&self) -> &B
        ensures { result.now ≡ self.now }
    {
        &*self.place
    }

    pub fn get_mut(&mut self) -> &mut B
        ensures* lends { sem 𝓛 (Lends (the_row B.row) B.row self.entry result (λ x. x)) }
        ensures value { result.now ≡ self.old }
    {
        &mut *self.place
    }
}
