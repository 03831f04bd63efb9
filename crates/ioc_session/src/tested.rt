//! Sessions that compare replies with what a script expects.
ghost use Rattle.std.specs.Prelude.{◌≡◌};

use crate::expectation::{Expectations, expected_in, last_line};
use ioc_main::{LineBuffer, PendingOutput, Session};
use std::alloc::{AllocError, Global};

/// A session that compares its replies with the lines `expect TEXT`, for which nothing is printed.
/// The other lines are answered as if there were none.
#[derive(Drop)]
pub struct Tested<S: Session + Drop> {
    session: S,
    alloc: Global,
    // The number of the line, from 1 on.
    line: u64,
    // The last line of replies, as far as a line can expect it.
    reply: LineBuffer,
    expectations: Expectations,
}

impl<S: Session + Drop> Tested<S> {
    /// A session before its first line.
    pub fn new(alloc: Global, session: S) -> Self
        ensures { result.session ≡ session }
    {
        Tested {
            session,
            alloc,
            line: 0,
            reply: LineBuffer::new(),
            expectations: Expectations::new(alloc),
        }
    }

    /// Returns the expectations of the lines that were answered.
    pub fn into_expectations(self) -> Expectations {
        let Tested { expectations, .. } = self;
        expectations
    }
}

// Replaces the last line of replies with that of these, if there is one.
fn note(reply: &mut LineBuffer, replies: &[u8]) {
    if !replies.is_empty() {
        reply.clear();
        reply.extend_cut(last_line(replies));
    }
}

impl<S: Session + Drop> Session for Tested<S> {
    ghost use Rattle.ioc_session.specs.Expecting.{unexpecting, same-lines};

    ghost transcript = { λ t lines. S.transcript t.session (unexpecting lines) };

    ghost is_determined = { λ t. S.is_determined t.session };

    ghost no_lines = { λ t. S.no_lines t.session };

    ghost long_lines = { λ t a b lines e. same-lines (S.transcript t.session) (S.long_lines t.session) a b lines e };

    /// Answers a line, or compares the reply before it with the text that it expects.
    fn answer(&mut self, line: &[u8], said: &mut PendingOutput) -> Result<(), AllocError> {
        self.line = self.line.saturating_add(1);
        if let Some(expected) = expected_in(line) {
            let reply = self.reply.as_slice();
            return self
                .expectations
                .compare(self.alloc, self.line, expected, reply);
        }
        let before = said.replies.as_slice().len();
        self.session.answer(line, said)?;
        let replies = said.replies.as_slice().get(before..).unwrap_or(b"");
        note(&mut self.reply, replies);
        note(&mut self.reply, said.more.as_slice());
        Ok(())
    }

    fn may_write(&mut self) -> bool {
        self.session.may_write()
    }

    fn before_read(&mut self) -> Option<&'static [u8]> {
        self.session.before_read()
    }

    fn has_ended(&self) -> bool {
        self.session.has_ended()
    }
}
