//! Channels.
use ioc_fields::FieldNo;
use ioc_names::RecordNo;

/// A field of a record, found by name, as EPICS' dbChannel.
/// [`Engine::channel`](crate::Engine::channel) finds it without a lock, and each thread may keep a
/// copy and use it as often as needed, since names and fields don't change while an engine runs.
///
/// It belongs to the engine that found it: with another engine it is the field that has the same
/// numbers there, and calls are refused if there is none.
///
/// ```rust
/// let severity = engine.channel(b"copy.SEVR")?;
/// // The text of the field, as `MINOR`.
/// let (reply, receipt) = engine.get(rt, &mut desk, severity)?;
/// ```
#[derive(Clone, Copy, PartialEq, Eq, Debug)]
pub struct Channel {
    // The number of the record.
    pub(crate) number: usize,
    pub(crate) field: FieldNo,
}

impl Channel {
    ghost use Rattle.std.specs.Prelude.{◌≡◌};

    /// Returns the record of the field.
    pub fn record(&self) -> RecordNo
        ensures { result ≡ self.now.number }
    {
        RecordNo::new(self.number)
    }
}
