//! Link fields, and how links are used.
ghost use Rattle.std.specs.Prelude.{◌≡◌};
ghost use Rattle.ioc_dbcommon.specs.Links.{no_link, use_of, record_named};
ghost use Rattle.ioc_dbcommon.specs.Wants.{is_unused, is_own_device};

use ioc_fields::FieldNo;
use ioc_links::{Link, Mode};
use ioc_names::RecordNo;

/// The field that a database link leads to: a field, other than a link, of an existing record.
#[derive(Clone, Copy, PartialEq, Eq, Debug)]
pub struct FieldAddress {
    pub number: RecordNo,
    pub field: FieldNo,
}

/// Where a link leads: a database link to a field, and a device link to the record's own device.
#[derive(Clone, Copy, PartialEq, Eq, Debug)]
pub enum Lead {
    Nowhere,
    Field(FieldAddress),
    OwnDevice,
}

/// A link field: the link as written, and where it leads. A database link or a device link that
/// leads nowhere is absent.
#[derive(Clone, Copy, PartialEq, Eq)]
pub struct LinkField {
    pub link: Link,
    pub lead: Lead,
}

/// A link that leads to a field: a record, the field of it, and how it is read or written.
#[derive(Clone, Copy, PartialEq, Eq, Debug)]
pub struct StandingLink {
    pub number: RecordNo,
    pub field: FieldNo,
    /// PP: the record is requested if it is passive.
    pub process_passive: bool,
    pub mode: Mode,
}

/// How a link is used.
#[derive(Clone, Copy, PartialEq, Eq, Debug)]
pub enum LinkUse {
    /// The link is empty or a constant.
    Unused,
    /// The link leads to the record's own device.
    OwnDevice,
    /// A database link whose record or field doesn't exist, or a device link without a device.
    Absent,
    Standing(StandingLink),
}

#[tactic(auto, unfolding(crate::specs::Links::use_of))]
impl LinkField {
    /// Creates an empty link.
    pub fn empty() -> Self
        ensures { result ≡ no_link }
    {
        LinkField {
            link: Link::Empty,
            lead: Lead::Nowhere,
        }
    }

    /// Returns whether the link is empty or a constant.
    pub fn is_unused(&self) -> bool
        ensures { result ≡ is_unused (use_of self.now) }
    {
        match self.link {
            Link::Empty | Link::Constant(_) | Link::Real(_) => true,
            Link::Device(_) => match self.lead {
                Lead::OwnDevice | Lead::Nowhere | Lead::Field(_) => false,
            },
            Link::Database(_, _) => match self.lead {
                Lead::OwnDevice | Lead::Nowhere | Lead::Field(_) => false,
            },
        }
    }

    /// Returns whether the link leads to the record's own device.
    pub fn is_own_device(&self) -> bool
        ensures { result ≡ is_own_device (use_of self.now) }
    {
        match self.link {
            Link::Empty | Link::Constant(_) | Link::Real(_) => false,
            Link::Device(_) => match self.lead {
                Lead::OwnDevice => true,
                Lead::Nowhere | Lead::Field(_) => false,
            },
            Link::Database(_, _) => match self.lead {
                Lead::OwnDevice | Lead::Nowhere | Lead::Field(_) => false,
            },
        }
    }

    /// Returns the record that the link names in use, if any.
    pub fn record_named(&self) -> Option<RecordNo>
        ensures { result ≡ record_named (use_of self.now) }
    {
        match self.link {
            Link::Empty | Link::Constant(_) | Link::Real(_) => None,
            Link::Device(_) => match self.lead {
                Lead::OwnDevice | Lead::Nowhere | Lead::Field(_) => None,
            },
            Link::Database(_, _) => match self.lead {
                Lead::OwnDevice | Lead::Nowhere => None,
                Lead::Field(standing) => Some(standing.number),
            },
        }
    }

    /// Returns how the link is used. Application Developer's Guide, "Database Links".
    pub fn in_use(&self) -> LinkUse
        ensures { result ≡ use_of self.now }
    {
        match self.link {
            Link::Empty | Link::Constant(_) | Link::Real(_) => LinkUse::Unused,
            Link::Device(_) => match self.lead {
                Lead::OwnDevice => LinkUse::OwnDevice,
                Lead::Nowhere | Lead::Field(_) => LinkUse::Absent,
            },
            Link::Database(_, flags) => match self.lead {
                Lead::Nowhere | Lead::OwnDevice => LinkUse::Absent,
                Lead::Field(standing) => LinkUse::Standing(StandingLink {
                    number: standing.number,
                    field: standing.field,
                    process_passive: flags.process_passive,
                    mode: flags.mode,
                }),
            },
        }
    }
}
