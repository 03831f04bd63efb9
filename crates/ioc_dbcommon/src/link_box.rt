//! A link field as a record stores it.
ghost use Rattle.std.specs.Prelude.{◌≡◌, IfOk};
ghost use Rattle.ioc_dbcommon.specs.Links.{no_link, use_of, device_text, record_named};
ghost use Rattle.ioc_dbcommon.specs.Wants.{is_unused, is_own_device, need_of_link};
ghost use Rattle.ioc_dbcommon.specs.Raw.{is_device};

use crate::body::Need;
use crate::link_field::{Lead, LinkField, LinkUse};
use ioc_links::{Link, MAX_DEVICE_BYTES};
use ioc_names::RecordNo;
use ioc_values::Short;
use std::alloc::{AllocError, Global};
use std::marker::Model;

/// A link field in its record; contracts see it as the link field. It is on the heap, where an
/// empty link takes no memory.
#[derive(Drop)]
pub struct LinkBox {
    place: Option<Box<LinkField>>,
}

impl Model for LinkBox {
    ghost use Rattle.ioc_dbcommon.specs.declared.link_field.LinkField.{LinkField};
    ghost use Rattle.ioc_dbcommon.specs.KeptLink.{kept_link};

    ghost Value = { LinkField };

    ghost view = { λ k. kept_link k.place };
}

impl LinkBox {
    /// Creates an empty link.
    pub fn empty() -> Self
        ensures { result ≡ no_link }
    {
        LinkBox { place: None }
    }

    /// Creates a link from a link field. It allocates, unless the link is empty.
    pub fn new(alloc: Global, field: LinkField) -> Result<Self, AllocError>
        ensures { IfOk result (λ k. k ≡ field) }
    {
        if let (Link::Empty, Lead::Nowhere) = (&field.link, field.lead) {
            return Ok(LinkBox::empty());
        }
        let place = Box::new(alloc, field)?;
        Ok(LinkBox { place: Some(place) })
    }

    /// Returns the link field.
    pub fn get(&self) -> LinkField
        ensures { result ≡ self.now }
    {
        match &self.place {
            Some(place) => **place,
            None => LinkField::empty(),
        }
    }

    /// Copies the link. It allocates, unless the link is empty.
    ///
    /// # Errors
    ///
    /// [`AllocError`] if allocation fails.
    pub fn copy(&self, alloc: Global) -> Result<Self, AllocError>
        ensures { IfOk result (λ copy. copy ≡ self.now) }
    {
        LinkBox::new(alloc, self.get())
    }

    /// Returns how the link is used.
    #[tactic(auto, unfolding(crate::specs::Links::use_of))]
    pub fn in_use(&self) -> LinkUse
        ensures { result ≡ use_of self.now }
    {
        match &self.place {
            Some(place) => place.in_use(),
            None => LinkUse::Unused,
        }
    }

    /// Returns whether the link is empty or a constant.
    #[tactic(auto, unfolding(crate::specs::Links::use_of))]
    pub fn is_unused(&self) -> bool
        ensures { result ≡ is_unused (use_of self.now) }
    {
        match &self.place {
            Some(place) => place.is_unused(),
            None => true,
        }
    }

    /// Returns whether the link leads to the record's own device.
    #[tactic(auto, unfolding(crate::specs::Links::use_of))]
    pub fn is_own_device(&self) -> bool
        ensures { result ≡ is_own_device (use_of self.now) }
    {
        match &self.place {
            Some(place) => place.is_own_device(),
            None => false,
        }
    }

    /// Returns the input that a body that reads the link needs first.
    pub fn need(&self) -> Need
        ensures { result ≡ need_of_link (use_of self.now) }
    {
        if self.is_unused() {
            Need::Nothing
        } else {
            Need::Link
        }
    }

    /// Returns the record that the link names in use, if any.
    #[tactic(auto, unfolding(crate::specs::Links::use_of))]
    pub fn record_named(&self) -> Option<RecordNo>
        ensures { result ≡ record_named (use_of self.now) }
    {
        match &self.place {
            Some(place) => place.record_named(),
            None => None,
        }
    }

    /// Returns whether the link names a device.
    pub fn is_device(&self) -> bool
        ensures { result ≡ is_device self.now.link }
    {
        match &self.place {
            Some(place) => matches!(place.link, Link::Device(_)),
            None => false,
        }
    }

    /// Returns the text of a device link, or an empty one for any other link.
    pub fn device_text(&self) -> Short<MAX_DEVICE_BYTES>
        ensures { result ≡ device_text self.now.link }
    {
        let Some(place) = &self.place else {
            return Short::new();
        };
        match place.link {
            Link::Device(text) => text,
            Link::Empty | Link::Constant(_) | Link::Real(_) | Link::Database(..) => Short::new(),
        }
    }
}
