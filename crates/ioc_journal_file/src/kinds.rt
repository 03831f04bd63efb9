//! The kinds of values and of calls.

/// The kind of a value.
#[derive(Clone, Copy)]
pub(crate) enum ValueKind {
    Long,
    ULong,
    Short,
    UShort,
    UChar,
    Enum,
    Int64,
    Double,
    Text,
}

/// The kind of a call.
#[derive(Clone, Copy)]
pub(crate) enum CallKind {
    Process,
    Put,
    Complete,
    Notify,
    Cancel,
    Get,
    IsLive,
    Link,
    Post,
    Interrupt,
}
