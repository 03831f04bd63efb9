//! Texts of fields as lines have them, so that a text never takes more than its line.
ghost use Rattle.std.specs.Prelude.{◌≡◌, ◌<◌, ◌++◌, true, option_map, take, OnOk};
ghost use Rattle.std.specs.Option.{IfSome};
ghost use Rattle.ioc_commands.specs.declared.texts.Escape.TheVariants.{No};
ghost use Rattle.ioc_commands.specs.Texts.{is_hidden, hex_digit, hex_value, shown_byte, escaped_byte, shown, escaped};
ghost use Rattle.ioc_commands.specs.Texts.{behind_backslash, is_begun, step_of, unescaped};

use ioc_values::ByteBuffer;
use std::alloc::AllocError;

/// The beginning of a text that was read, long enough to know that it is too long for a field.
pub type ReadText = ByteBuffer<64>;

// What was read of an escape.
#[derive(Clone, Copy)]
pub(crate) enum Escape {
    No,
    /// A backslash.
    Begun,
    /// The beginning of the escape of a byte by its number.
    Number,
    /// The first digit's number.
    High(u8),
}

// What a byte means in a text with escapes.
#[derive(Clone, Copy)]
pub(crate) enum Step {
    /// It belongs to no escape.
    Bad,
    /// An escape goes on behind it.
    GoesOn(Escape),
    /// It ends what stands for this byte.
    Ends(u8),
}

// Returns whether a terminal doesn't show the byte. A tab is shown.
fn is_hidden(byte: u8) -> bool
    ensures { result ≡ is_hidden byte }
{
    (byte < 32 && byte != b'\t') || byte == 127
}

// Returns the digit for a number below 16.
fn hex_digit(number: u8) -> u8
    requires { number < 16 }
    ensures { result ≡ hex_digit number }
{
    if number < 10 {
        48 + number
    } else {
        87 + number
    }
}

// Appends a byte as a line shows it.
fn add_shown_byte(out: &mut Vec<u8>, byte: u8) -> Result<(), AllocError>
    ensures { OnOk result (out.new.items ≡ out.old.items ++ shown_byte byte) }
{
    if byte == b'\n' {
        return out.extend_from_slice(b"\\n");
    }
    if byte == b'\r' {
        return out.extend_from_slice(b"\\r");
    }
    if !is_hidden(byte) {
        out.push(byte)?;
        return Ok(());
    }
    out.extend_from_slice(b"\\x")?;
    out.push(hex_digit(byte / 16))?;
    out.push(hex_digit(byte % 16))?;
    Ok(())
}

// Appends a byte as a program reads it.
fn add_escaped_byte(out: &mut Vec<u8>, byte: u8) -> Result<(), AllocError>
    ensures { OnOk result (out.new.items ≡ out.old.items ++ escaped_byte byte) }
{
    if byte == b'\t' {
        return out.extend_from_slice(b"\\t");
    }
    if byte == b'\\' {
        return out.extend_from_slice(b"\\\\");
    }
    add_shown_byte(out, byte)
}

/// Appends a text as a line shows it: a line feed is `\n`, a carriage return `\r`, each other byte
/// below 32 but the tab, and 127, is `\xHH` in small letters. A backslash stays as it is.
///
/// # Errors
///
/// [`AllocError`] if allocation fails; a part may have been appended then.
pub fn add_shown_text(out: &mut Vec<u8>, text: &[u8]) -> Result<(), AllocError>
    ensures { OnOk result (out.new.items ≡ out.old.items ++ shown text.now) }
{
    for byte in text {
        add_shown_byte(out, *byte)?;
    }
    Ok(())
}

/// Appends a text as programs read it: as [`add_shown_text`], and a tab is `\t` and a backslash
/// `\\`, so that [`read_text`] has it again.
///
/// # Errors
///
/// [`AllocError`] if allocation fails; a part may have been appended then.
pub fn add_escaped_text(out: &mut Vec<u8>, text: &[u8]) -> Result<(), AllocError>
    ensures { OnOk result (out.new.items ≡ out.old.items ++ escaped text.now) }
{
    for byte in text {
        add_escaped_byte(out, *byte)?;
    }
    Ok(())
}

// Returns the number that a hexadecimal digit stands for.
fn hex_value(digit: u8) -> Option<u8>
    ensures value { result ≡ hex_value digit }
    ensures below { IfSome result (λ n. n < 16) }
{
    match char::from(digit).to_digit(16) {
        Some(value) => Some(value as u8),
        None => None,
    }
}

// Returns what a byte behind a backslash means.
fn behind_backslash(byte: u8) -> Step
    ensures { result ≡ behind_backslash byte }
{
    match byte {
        b'n' => Step::Ends(b'\n'),
        b'r' => Step::Ends(b'\r'),
        b't' => Step::Ends(b'\t'),
        b'\\' => Step::Ends(b'\\'),
        b'x' => Step::GoesOn(Escape::Number),
        _ => Step::Bad,
    }
}

// Returns what a byte means behind what was read of an escape.
fn step_of(state: Escape, byte: u8) -> Step
    requires { is_begun state ≡ true }
    ensures { result ≡ step_of state byte }
{
    match state {
        Escape::No if byte == b'\\' => Step::GoesOn(Escape::Begun),
        Escape::No => Step::Ends(byte),
        Escape::Begun => behind_backslash(byte),
        Escape::Number => match hex_value(byte) {
            Some(high) => Step::GoesOn(Escape::High(high)),
            None => Step::Bad,
        },
        Escape::High(high) => match hex_value(byte) {
            Some(low) => Step::Ends(16 * high + low),
            None => Step::Bad,
        },
    }
}

/// Reads a text with the escapes of [`add_escaped_text`], the digits of numbers in small or capital
/// letters. Returns its first 64 bytes, or `None` if a backslash begins no escape.
#[tactic(auto, using(crate::proofs::Escapes::read_from_the_start))]
pub fn read_text(bytes: &[u8]) -> Option<ReadText>
    ensures { result ≡ option_map (take 64) (unescaped bytes.now No) }
{
    let mut text = ReadText::new();
    let mut state = Escape::No;
    let mut rest = bytes;
    while let [first, after @ ..] = rest {
        match step_of(state, *first) {
            Step::Bad => return None,
            Step::GoesOn(next) => state = next,
            Step::Ends(byte) => {
                text.extend_cut(&[byte]);
                state = Escape::No;
            }
        }
        rest = after;
    }
    match state {
        Escape::No => Some(text),
        _ => None,
    }
}
