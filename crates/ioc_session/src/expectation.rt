//! The replies that a script expects.
ghost use Rattle.std.specs.Prelude.{◌≡◌, ◌≢◌, ◌+◌, length, option_map, OnOk};
ghost use Rattle.ioc_session.specs.Expecting.{expected_in};

use ioc_commands::{Quoted, cut_at};
use std::alloc::{AllocError, Global};
use std::io::{self, Write};

/// Returns the text that a line expects, if it is `expect TEXT`. The text is empty if it is
/// missing.
#[tactic(auto, unfolding(crate::specs::Expecting::expected_in))]
pub fn expected_in(line: &[u8]) -> Option<&[u8]>
    ensures { option_map (λ text. text.now) result ≡ expected_in line.now }
{
    if line.len() > 1024 {
        return None;
    }
    let (word, text) = cut_at(line, b' ');
    if word == b"expect".as_slice() {
        Some(text.unwrap_or(b""))
    } else {
        None
    }
}

/// Returns the last line of some lines of replies, without its line feed.
pub fn last_line(replies: &[u8]) -> &[u8] {
    let text = match replies {
        [text @ .., b'\n'] => text,
        _ => replies,
    };
    match text.iter().rposition(|byte| *byte == b'\n') {
        Some(place) => text.get(place.saturating_add(1)..).unwrap_or(text),
        None => text,
    }
}

/// An expectation that failed.
#[derive(Drop)]
pub struct Failure {
    /// The number of its line, from 1 on.
    pub line: u64,
    /// The text that it expected.
    pub expected: Vec<u8>,
    /// The last line of replies before it, cut to 1,025 bytes, or nothing if there was
    /// none.
    pub reply: Vec<u8>,
}

/// The expectations of a script: how many there were, and those that failed.
#[derive(Drop)]
pub struct Expectations {
    pub count: u64,
    pub failures: Vec<Failure>,
}

impl Expectations {
    /// No expectations.
    pub fn new(alloc: Global) -> Self {
        Expectations {
            count: 0,
            failures: Vec::new(alloc),
        }
    }

    /// Compares the text that the line with this number expects with the reply before it. The
    /// expectation has failed if they differ.
    ///
    /// # Errors
    ///
    /// [`AllocError`] if allocation fails.
    pub fn compare(
        &mut self,
        alloc: Global,
        line: u64,
        expected: &[u8],
        reply: &[u8],
    ) -> Result<(), AllocError>
        ensures same { expected.now ≡ reply.now → self.new.failures.items ≡ self.old.failures.items }
        ensures differ { expected.now ≢ reply.now
            → OnOk result (length self.new.failures.items ≡ length self.old.failures.items + 1) }
    {
        self.count = self.count.saturating_add(1);
        if expected == reply {
            return Ok(());
        }
        let failure = Failure {
            line,
            expected: Vec::from_slice(alloc, expected)?,
            reply: Vec::from_slice(alloc, reply)?,
        };
        self.failures.push(failure)?;
        Ok(())
    }

    /// Writes a line for each failure, and one with the counts.
    ///
    /// # Errors
    ///
    /// [`io::Error`] if a write fails.
    pub fn report<E: Write>(&self, errors: &mut E) -> io::Result<()> {
        for failure in &self.failures {
            let (expected, reply) = (Quoted(&failure.expected), Quoted(&failure.reply));
            writeln!(
                errors,
                "line {}: expected {expected}, got {reply}",
                failure.line
            )?;
        }
        let failed = self.failures.len();
        writeln!(errors, "{} expectations, {failed} failed", self.count)
    }
}
