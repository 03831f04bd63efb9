//! The line `sets`, which has the names of the records of each lock set in braces.
ghost use Rattle.std.specs.Prelude.{◌≡◌, ◌++◌, ◌∷◌, [], codes, OnOk};

use std::alloc::AllocError;

/// Appends the beginning of the line `sets`.
///
/// # Errors
///
/// [`AllocError`] if allocation fails.
pub fn begin_sets(line: &mut Vec<u8>) -> Result<(), AllocError>
    ensures { OnOk result (line.new.items ≡ line.old.items ++ codes "sets") }
{
    line.extend_from_slice(b"sets")
}

/// Appends the name of the first record of a set.
///
/// # Errors
///
/// [`AllocError`] if allocation fails; a part may have been appended then.
pub fn begin_set(line: &mut Vec<u8>, name: &[u8]) -> Result<(), AllocError>
    ensures { OnOk result (line.new.items ≡ line.old.items ++ codes " {" ++ name.now) }
{
    line.extend_from_slice(b" {")?;
    line.extend_from_slice(name)
}

/// Appends the name of another record of a set.
///
/// # Errors
///
/// [`AllocError`] if allocation fails; a part may have been appended then.
pub fn add_to_set(line: &mut Vec<u8>, name: &[u8]) -> Result<(), AllocError>
    ensures { OnOk result (line.new.items ≡ line.old.items ++ codes " " ++ name.now) }
{
    line.extend_from_slice(b" ")?;
    line.extend_from_slice(name)
}

/// Appends the end of a set.
///
/// # Errors
///
/// [`AllocError`] if allocation fails.
pub fn end_set(line: &mut Vec<u8>) -> Result<(), AllocError>
    ensures { OnOk result (line.new.items ≡ line.old.items ++ codes "}") }
{
    line.extend_from_slice(b"}")
}

/// Appends the end of the line `sets`, a line feed.
///
/// # Errors
///
/// [`AllocError`] if allocation fails.
pub fn end_sets(line: &mut Vec<u8>) -> Result<(), AllocError>
    ensures { OnOk result (line.new.items ≡ line.old.items ++ 10 ∷ []) }
{
    line.extend_from_slice(b"\n")
}
