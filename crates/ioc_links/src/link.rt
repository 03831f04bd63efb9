//! Links as they are written in a text.
use ioc_values::{FieldName, Name, Short, Text};

/// The maximum length of a link text in bytes.
pub const MAX_LINK_BYTES: usize = 120;

/// The maximum length of the text of a device link in bytes, without its `@`.
pub const MAX_DEVICE_BYTES: usize = MAX_LINK_BYTES - 1;

/// How a link passes on the alarm severity of the record that it names.
#[derive(Clone, Copy, PartialEq, Eq, Debug)]
pub enum Mode {
    /// Not at all.
    Nms,
    /// The severity is passed on.
    Ms,
    /// The severity is passed on if it is INVALID.
    Msi,
    /// The severity and the status are passed on.
    Mss,
}

/// The record and the field that a database link names.
#[derive(Clone, Copy, PartialEq, Eq)]
pub struct Target {
    pub record_name: Name,
    pub field: FieldName,
}

/// The words after the target of a database link.
#[derive(Clone, Copy, PartialEq, Eq, Debug)]
pub struct Flags {
    /// PP: a passive target is processed.
    pub process_passive: bool,
    pub mode: Mode,
}

/// A link as its text spells it.
#[derive(Clone, Copy, PartialEq, Eq)]
pub enum Link {
    Empty,
    Constant(i64),
    /// A decimal number with a point or an exponent, as it was written.
    Real(Text),
    /// The text after the `@`.
    Device(Short<MAX_DEVICE_BYTES>),
    Database(Target, Flags),
}

/// The links that a field can hold.
#[derive(Clone, Copy, PartialEq, Eq, Debug)]
pub enum LinkKind {
    /// Device links too: INP and OUT.
    WithDevice,
    /// No device links: every other link field.
    NoDevice,
}
