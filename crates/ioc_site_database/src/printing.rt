//! What the program prints of its findings.
ghost use Rattle.std.specs.Prelude.{◌≡◌, ◌+◌, ◌<◌, ◌≤◌, ◌↔◌, ◌++◌, count_by, length, OnOk};
ghost use Rattle.ioc_site_database.specs.Counting.{is_error};
ghost use Rattle.ioc_site_database.specs.Printing.{hex_digit, is_control, one_line_byte, on_one_line};

use ioc_site::{Finding, Severity};
use std::alloc::{AllocError, Global};
use std::fmt::Write;

/// How many mistakes there are, and how many findings that are worth a look.
#[derive(Clone, Copy, PartialEq, Eq, Debug)]
pub struct Counts {
    pub errors: usize,
    pub warnings: usize,
}

// Returns whether the finding is a mistake.
fn is_error(finding: &Finding) -> bool
    ensures { result ≡ is_error finding.now }
{
    match finding.severity {
        Severity::Error => true,
        Severity::Warning => false,
    }
}

impl Counts {
    /// Counts the findings.
    pub fn of(findings: &[Finding]) -> Self
        ensures errors { result.errors ≡ count_by is_error findings.now }
        ensures all { result.errors + result.warnings ≡ length findings.now }
    {
        let errors = findings.iter().filter(|finding| is_error(finding)).count();
        Counts {
            errors,
            warnings: findings.len() - errors,
        }
    }

    /// Returns the counts with at least so many errors.
    pub fn with_least(self, errors: usize) -> Self
        ensures { errors ≤ result.errors }
    {
        Counts {
            errors: self.errors.max(errors),
            warnings: self.warnings,
        }
    }

    /// Returns the counts without errors.
    pub fn without_errors(self) -> Self
        ensures { result.errors ≡ 0 }
    {
        Counts {
            errors: 0,
            warnings: self.warnings,
        }
    }

    /// Returns the exit status: 1 if there is a mistake, and else 0.
    pub fn status(&self) -> u8
        ensures sound { (result ≡ 0) ↔ (self.now.errors ≡ 0) }
        ensures below { result < 2 }
    {
        u8::from(self.errors > 0)
    }

    /// Returns the counts as the last line that is printed, as `1 error, 2 warnings`.
    ///
    /// # Errors
    ///
    /// [`AllocError`] if allocation fails.
    pub fn line(&self, alloc: Global) -> Result<String, AllocError> {
        let Counts { errors, warnings } = *self;
        let error = if errors == 1 { "error" } else { "errors" };
        let warning = if warnings == 1 { "warning" } else { "warnings" };
        format!(in alloc; "{errors} {error}, {warnings} {warning}\n")
    }
}

// Returns whether the byte is a control character.
fn is_control(byte: u8) -> bool
    ensures { result ≡ is_control byte }
{
    byte < 32 || byte == 127
}

// Returns the digit for a number below 16.
fn hex_digit(number: u8) -> u8
    requires { number < 16 }
    ensures { result ≡ hex_digit number }
{
    if number < 10 {
        b'0' + number
    } else {
        b'W' + number
    }
}

// Appends a byte as it stands on one line.
fn add_byte(byte: u8, out: &mut Vec<u8>) -> Result<(), AllocError>
    ensures { OnOk result (out.new.items ≡ out.old.items ++ one_line_byte byte) }
{
    if is_control(byte) {
        out.extend_from_slice(b"\\x")?;
        out.push(hex_digit(byte / 16))?;
        out.push(hex_digit(byte % 16))?;
        return Ok(());
    }
    out.push(byte)?;
    Ok(())
}

// Appends a text so that nothing in it ends the line or steers a terminal: each control character
// stands as `\x` and two hexadecimal digits.
fn add_on_one_line(text: &[u8], out: &mut Vec<u8>) -> Result<(), AllocError>
    ensures { OnOk result (out.new.items ≡ out.old.items ++ on_one_line text.now) }
{
    for byte in text {
        add_byte(*byte, out)?;
    }
    Ok(())
}

// Appends the line of a finding: its place, what it is, and its text.
fn add_finding(
    alloc: Global,
    files: &[Vec<u8>],
    finding: &Finding,
    what: &str,
    out: &mut Vec<u8>,
) -> Result<(), AllocError> {
    if let Some(file) = files.get(finding.place.file as usize) {
        add_on_one_line(file.as_slice(), out)?;
    }
    let (line, column) = (finding.place.line, finding.place.column);
    let mut text = String::new(alloc);
    write!(text, ":{line}:{column}: {what}: ")?;
    out.extend_from_slice(text.as_bytes())?;
    add_on_one_line(finding.text.as_slice(), out)?;
    Ok(out.push(b'\n')?)
}

/// Appends a line for each finding.
///
/// # Errors
///
/// [`AllocError`] if allocation fails.
pub fn add_findings(
    alloc: Global,
    files: &[Vec<u8>],
    findings: &[Finding],
    out: &mut Vec<u8>,
) -> Result<(), AllocError> {
    for finding in findings {
        let what = match finding.severity {
            Severity::Error => "error",
            Severity::Warning => "warning",
        };
        add_finding(alloc, files, finding, what, out)?;
    }
    Ok(())
}

/// Appends a line for each of these, which tell what was adapted.
///
/// # Errors
///
/// [`AllocError`] if allocation fails.
pub fn add_adapted(
    alloc: Global,
    files: &[Vec<u8>],
    notes: &[Finding],
    out: &mut Vec<u8>,
) -> Result<(), AllocError> {
    for note in notes {
        add_finding(alloc, files, note, "adapted", out)?;
    }
    Ok(())
}
