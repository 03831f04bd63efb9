//! The first line of a journal's file.
ghost use Rattle.std.specs.Prelude.{◌≡◌, ◌++◌, ◌∷◌, [], OnOk, IfOk, IfSome, Some};
ghost use Rattle.ioc_journal_lines.specs.Lines.{header_line, device_word, seal_word, read_header, IsHeader};
ghost use Rattle.ioc_journal_lines.specs.Words.{Gives};

use crate::digest::{add_digest, digest_at};
use crate::words::{is_same, number_at, split};
use ioc_values::Short;
use itoa::Buffer;
use std::alloc::{AllocError, Global};

/// What the first line of a journal's file tells of it.
#[derive(Clone, Copy)]
pub struct Header {
    /// The version of the program that wrote it.
    pub program: Short<16>,
    /// The SHA-256 hash of the database text and of the macros.
    pub database: [u8; 32],
    /// Whether each record with a device link has a device of its own. Otherwise a device that several
    /// records name is that of the lowest one.
    pub has_own_devices: bool,
    /// Whether it has seals.
    pub is_sealed: bool,
    /// The place of its first entry.
    pub first: u64,
}

// Returns the word for the rule by which devices belong to records.
#[tactic(auto, unfolding(crate::specs::Lines::device_word))]
fn device_word(has_own_devices: bool) -> &'static [u8]
    ensures { result.now ≡ device_word has_own_devices }
{
    if has_own_devices { b"own" } else { b"lowest" }
}

// Returns the word for whether a journal has seals.
#[tactic(auto, unfolding(crate::specs::Lines::seal_word))]
fn seal_word(is_sealed: bool) -> &'static [u8]
    ensures { result.now ≡ seal_word is_sealed }
{
    if is_sealed { b"sealed" } else { b"plain" }
}

// Appends the words for the rule of devices and for whether there are seals, between tabs.
fn add_rules(out: &mut Vec<u8>, header: &Header) -> Result<(), AllocError>
    ensures { OnOk result (out.new.items
        ≡ out.old.items ++ 9 ∷ device_word header.now.has_own_devices ++ 9 ∷ seal_word header.now.is_sealed ++ 9 ∷ []) }
{
    out.push(b'\t')?;
    out.extend_from_slice(device_word(header.has_own_devices))?;
    out.push(b'\t')?;
    out.extend_from_slice(seal_word(header.is_sealed))?;
    out.push(b'\t')?;
    Ok(())
}

/// Appends the line of a header.
///
/// # Errors
///
/// [`AllocError`] if allocation fails; a part of the line may have been appended then.
#[tactic(auto, unfolding(crate::specs::Lines::header_line))]
pub fn add_header(out: &mut Vec<u8>, header: &Header) -> Result<(), AllocError>
    ensures { OnOk result (out.new.items ≡ out.old.items ++ header_line header.now) }
{
    out.extend_from_slice(b"journal\t1\t")?;
    out.extend_from_slice(header.program.as_slice())?;
    out.push(b'\t')?;
    add_digest(out, &header.database)?;
    add_rules(out, header)?;
    out.extend_from_slice(Buffer::new().format(header.first).as_bytes())?;
    out.push(b'\n')?;
    Ok(())
}

/// Reads the parts of a header.
#[tactic(auto, unfolding(crate::specs::Lines::read_header))]
fn read_header(line: &[u8]) -> Option<Header>
    ensures { Gives (λ x. x) result (read_header line.now) }
{
    let (_journal, rest) = split(line);
    let (_form, rest) = split(rest);
    let (program, rest) = split(rest);
    let (database, rest) = digest_at(rest)?;
    let (devices, rest) = split(rest);
    let (seals, rest) = split(rest);
    let (first, _rest) = number_at(rest)?;
    Some(Header {
        program: Short::cut(program),
        database,
        has_own_devices: is_same(devices, b"own"),
        is_sealed: is_same(seals, b"sealed"),
        first,
    })
}

/// Reads a line, with the line break at its end: the header that [`add_header`] writes so, or `None` if
/// no header has this line.
///
/// # Errors
///
/// [`AllocError`] if allocation fails.
pub fn header_of(alloc: Global, line: &[u8]) -> Result<Option<Header>, AllocError>
    ensures found { IfOk result (λ read. IfSome read (λ header. line.now ≡ header_line header)) }
    ensures only { (header : Header) → IsHeader header → line.now ≡ header_line header → IfOk result (λ read. read ≡ Some header) }
{
    let Some(header) = read_header(line) else {
        return Ok(None);
    };
    let mut out = Vec::new(alloc);
    add_header(&mut out, &header)?;
    if !is_same(out.as_slice(), line) {
        return Ok(None);
    }
    Ok(Some(header))
}
