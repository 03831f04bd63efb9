//! The texts of a database text's lines, stored in one piece.
ghost use Rattle.std.specs.Prelude.{◌≤◌, ◌<◌, ◌^◌, length, sum};

/// The reason why the texts end.
#[derive(Clone, Copy, PartialEq, Eq, Debug)]
pub enum End {
    /// The database text ends.
    Whole,
    /// The macros of the next line can't be replaced.
    BadMacro,
    /// The database text exceeds 16 MiB on the last of these lines.
    TooLong,
}

/// The texts of lines, without comments and line ends and with their macros replaced.
#[derive(Drop)]
pub struct Texts {
    /// The texts one after another.
    pub bytes: Vec<u8>,
    /// The length of each text, in bytes.
    pub lengths: Vec<usize>,
    pub end: End,
    ghost fits: { sum lengths.items ≤ length bytes.items },
    ghost few: { length lengths.items < 2 ^ 62 },
}
