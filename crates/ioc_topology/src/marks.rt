//! The marks of records that were found.
ghost use Rattle.std.specs.Prelude.{◌≡◌, ℕ, false, slice_index_or};

use std::alloc::{AllocError, Global};
use std::mem;

/// A mark for each record, none of which is set.
#[derive(Drop)]
pub(crate) struct Marks {
    list: Vec<bool>,
    ghost is_clear: { (q : ℕ) → slice_index_or list.items q false ≡ false },
}

impl Marks {
    /// Creates a mark for each of the first `count` records.
    pub fn new(alloc: Global, count: usize) -> Result<Marks, AllocError> {
        Ok(Marks {
            list: Vec::from_elem(alloc, false, count)?,
        })
    }

    /// Takes all marks. Allocates nothing.
    pub fn take(&mut self, alloc: Global) -> Vec<bool>
        ensures { (q : ℕ) → slice_index_or result.items q false ≡ false }
    {
        let none = Marks {
            list: Vec::new(alloc),
        };
        let Marks { list } = mem::replace(self, none);
        list
    }
}
