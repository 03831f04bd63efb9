//! Sessions that tell more than the replies.
use crate::directory::Directory;
use crate::explanation::explained;
use crate::user_line::script_line;
use ioc_commands::{Dialect, Help, Request, cut_at};
use ioc_main::{PROMPT, PendingOutput, Session};
use ioc_trace::TraceLog;
use std::alloc::{AllocError, Global};
use std::io::Write;

/// What a dialogue tells beside the replies.
#[derive(Drop)]
pub struct Told {
    /// The records that explanations speak of. Nothing is explained without them.
    pub directory: Option<Directory>,
    /// Whether each line is printed with its number.
    pub has_echo: bool,
    /// What was traced and isn't printed yet, if events are traced.
    pub trace: Option<TraceLog>,
    /// Whether a user is prompted.
    pub has_prompt: bool,
}

/// A session that tells more than the replies of another one.
#[derive(Drop)]
pub struct Dialogue<S: Session + Drop, E: Write + Drop> {
    session: S,
    alloc: Global,
    told: Told,
    // Where explanations are written: those of replies that are written, and those of the others.
    errors: E,
    due: Vec<u8>,
    coming: Vec<u8>,
    // The number of the line, from 1 on.
    line: u64,
    has_ended: bool,
}

impl<S: Session + Drop, E: Write + Drop> Dialogue<S, E> {
    /// A dialogue before its first line, whose explanations are written to `errors`.
    pub fn new(alloc: Global, session: S, told: Told, errors: E) -> Self {
        Dialogue {
            session,
            alloc,
            told,
            errors,
            due: Vec::new(alloc),
            coming: Vec::new(alloc),
            line: 0,
            has_ended: false,
        }
    }

    /// Ends the dialogue: writes what is left to explain, and returns the session and whether a user
    /// is still at the prompt.
    pub fn into_session(mut self) -> (S, bool) {
        self.write_explained();
        let is_prompted = self.told.has_prompt && !self.has_ended;
        let Dialogue { session, .. } = self;
        (session, is_prompted)
    }

    // Returns who speaks.
    fn dialect(&self) -> Dialect {
        if self.told.has_prompt {
            Dialect::Prompt
        } else {
            Dialect::Script
        }
    }

    // Writes the explanations of replies that are written. If that fails, nothing else changes.
    fn write_due(&mut self) {
        if !self.due.is_empty() {
            let _written = self.errors.write_all(self.due.as_slice());
            self.due.clear();
        }
    }

    // Writes all explanations.
    fn write_explained(&mut self) {
        self.write_due();
        let _written = self.errors.write_all(self.coming.as_slice());
        self.coming.clear();
    }

    // Appends a line with its number, if lines are echoed.
    fn echo(&self, line: &[u8], said: &mut Vec<u8>) -> Result<(), AllocError> {
        if !self.told.has_echo {
            return Ok(());
        }
        let number = format!(in self.alloc; "{}> ", self.line)?;
        said.extend_from_slice(number.as_bytes())?;
        said.extend_from_slice(line)?;
        said.push(b'\n')?;
        Ok(())
    }

    // Explains a reply, which comes without its line feed.
    fn explain(&mut self, line: &[u8], reply: &[u8]) -> Result<(), AllocError> {
        let Some(directory) = &self.told.directory else {
            return Ok(());
        };
        if let Some(words) = explained(directory, self.dialect(), line, reply)? {
            let text = format!(in self.alloc; "line {}: {words}\n", self.line)?;
            self.coming.extend_from_slice(text.as_bytes())?;
        }
        Ok(())
    }

    // Answers a line of a script.
    fn answer_script(&mut self, line: &[u8], said: &mut Vec<u8>) -> Result<(), AllocError> {
        let mut inner = PendingOutput::new(self.alloc);
        self.session.answer(line, &mut inner)?;
        if let Some(trace) = &self.told.trace {
            said.extend_from_slice(trace.take()?.as_slice())?;
        }
        let replies = inner.replies.as_slice();
        said.extend_from_slice(replies)?;
        said.extend_from_slice(inner.more.as_slice())?;
        self.explain(line, cut_at(replies, b'\n').0)
    }

    // Answers a line of a user.
    fn answer_user(&mut self, line: &[u8], said: &mut Vec<u8>) -> Result<(), AllocError> {
        match Request::from_line(Dialect::Prompt, line) {
            Request::Exit => {
                self.has_ended = true;
                Ok(())
            }
            Request::Help => {
                let help = format!(in self.alloc; "{}", Help(Dialect::Prompt))?;
                said.extend_from_slice(help.as_bytes())
            }
            _ => self.answer_script(script_line(line).as_slice(), said),
        }
    }

    // Answers a line of any kind.
    fn tell(&mut self, line: &[u8], said: &mut Vec<u8>) -> Result<(), AllocError> {
        self.line = self.line.saturating_add(1);
        self.echo(line, said)?;
        if self.told.has_prompt {
            self.answer_user(line, said)
        } else {
            self.answer_script(line, said)
        }
    }
}

impl<S: Session + Drop, E: Write + Drop> Session for Dialogue<S, E> {
    ghost use Rattle.std.specs.Prelude.{[]};
    ghost use Rattle.std.proofs.Common.{refl};

    ghost transcript = { λ _ _. [] };

    ghost is_determined = { λ _. ⊥ };

    ghost no_lines = { λ _. refl };

    ghost long_lines = { λ _ _ _ _ _. refl };

    /// Answers a line, with what is told beside its replies.
    fn answer(&mut self, line: &[u8], said: &mut PendingOutput) -> Result<(), AllocError> {
        self.tell(line, &mut said.more)
    }

    fn may_write(&mut self) -> bool {
        self.write_due();
        std::mem::swap(&mut self.due, &mut self.coming);
        self.session.may_write()
    }

    fn before_read(&mut self) -> Option<&'static [u8]> {
        self.write_explained();
        if self.told.has_prompt {
            Some(PROMPT)
        } else {
            self.session.before_read()
        }
    }

    fn has_ended(&self) -> bool {
        self.has_ended || self.session.has_ended()
    }
}
