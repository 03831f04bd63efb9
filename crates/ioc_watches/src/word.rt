//! The words of lines that watch.
use ioc_commands::cut_at;

/// The parts of a word of a line that watches: `REC.F`, or `REC.F#` for the number behind the field. A
/// record alone is its field VAL. A `#` in the name of a record is a part of that name.
///
/// ```rust
/// // The number of the state of `door`.
/// let parts = WatchWord::of(b"door.VAL#");
/// ```
#[derive(Clone, Copy)]
pub struct WatchWord<'a> {
    pub record: &'a [u8],
    pub field: &'a [u8],
    /// Whether the number behind the field is shown.
    pub is_number: bool,
}

impl<'a> WatchWord<'a> {
    /// Parts a word.
    pub fn of(word: &'a [u8]) -> Self {
        let (record, field) = cut_at(word, b'.');
        let Some(field) = field else {
            return WatchWord {
                record,
                field: b"VAL",
                is_number: false,
            };
        };
        match field {
            [field @ .., b'#'] => WatchWord {
                record,
                field,
                is_number: true,
            },
            _ => WatchWord {
                record,
                field,
                is_number: false,
            },
        }
    }
}
