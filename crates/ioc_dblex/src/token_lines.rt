//! The texts of the remaining lines.
ghost use Rattle.std.specs.Prelude.{◌≤◌, length, sum};

/// Some of a database text's lines: the texts one after another, and the length of each in bytes.
#[derive(Clone, Copy)]
pub struct Lines<'a> {
    pub bytes: &'a [u8],
    pub lengths: &'a [usize],
    ghost fits: { sum lengths.now ≤ length bytes.now },
}
