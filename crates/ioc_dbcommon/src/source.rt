//! The field that names the input of the input types.
ghost use Rattle.std.specs.Prelude.{◌≡◌, IfOk};
ghost use Rattle.std.specs.Option.{option_copied};
ghost use Rattle.ioc_dbcommon.specs.Source.{new_source, source_link, source_with_link, source_begin};
ghost use Rattle.ioc_dbcommon.specs.Wants.{need_of, link_wanted};

use crate::body::Need;
use crate::link_box::LinkBox;
use crate::link_field::LinkUse;
use ioc_fields::OwnField;
use std::alloc::{AllocError, Global};

/// INP. Record Reference Manual, "Input Specification".
#[derive(Drop)]
pub struct Source {
    /// INP.
    pub input: LinkBox,
}

impl Source {
    /// Creates the field of a new record, which is empty.
    #[tactic(auto, unfolding(crate::specs::Source::new_source))]
    pub fn new() -> Self
        ensures { result ≡ new_source }
    {
        Source {
            input: LinkBox::empty(),
        }
    }

    /// Copies the field.
    ///
    /// # Errors
    ///
    /// [`AllocError`] if allocation fails.
    pub fn copy(&self, alloc: Global) -> Result<Self, AllocError>
        ensures { IfOk result (λ copy. copy ≡ self.now) }
    {
        let input = self.input.copy(alloc)?;
        Ok(Source { input })
    }

    pub fn link(&self, field: OwnField) -> Option<&LinkBox>
        ensures { option_copied result ≡ source_link self.now.input field }
    {
        match field {
            OwnField::Inp => Some(&self.input),
            _ => None,
        }
    }

    #[tactic(auto, unfolding(crate::specs::Source::source_with_link))]
    pub fn set_link(&mut self, field: OwnField, link: LinkBox)
        ensures { self.new ≡ source_with_link self.old field link }
    {
        if let OwnField::Inp = field {
            self.input = link;
        }
    }

    /// Returns what is needed first: the device if INP names the record's own, else INP itself.
    #[tactic(auto, using(crate::specs::Wants::source_need))]
    pub fn begin(&self) -> Need
        ensures { result ≡ need_of (source_begin self.now.input) }
    {
        if self.input.is_unused() {
            Need::Nothing
        } else if self.input.is_own_device() {
            Need::Device
        } else {
            Need::Link
        }
    }

    /// Returns the link that is read, if there is one.
    #[tactic(auto, using(crate::specs::Wants::source_wanted))]
    pub fn wanted_link(&self) -> LinkUse
        ensures { result ≡ link_wanted (source_begin self.now.input) }
    {
        match self.input.in_use() {
            LinkUse::OwnDevice => LinkUse::Unused,
            link => link,
        }
    }
}
