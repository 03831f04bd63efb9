//! Sessions, which answer the lines of a script.
ghost use Rattle.std.specs.Prelude.{◌≡◌, ◌↔◌, ◌≤◌, ◌+◌, ◌∷◌, ◌++◌, [], List, ℕ, length};
ghost use Rattle.std.specs.Prelude.{IsTrue, None, OnOk, OnErr, false, true};
ghost use Rattle.ioc_commands.specs.Commands.{cut};
ghost use Rattle.ioc_main.specs.Coming.{still, Stands};

use ioc_values::ByteBuffer;
use std::alloc::{AllocError, Global};

/// What a user at a terminal sees before a line is read.
pub const PROMPT: &[u8] = b"epics> ";

/// The lines of replies that are written at once.
pub type Replies = ByteBuffer<4096>;

/// The pending replies, which aren't written yet: the lines of replies, and what follows the last
/// of them.
#[derive(Drop)]
pub struct PendingOutput {
    pub replies: Replies,
    pub more: Vec<u8>,
}

impl PendingOutput {
    /// No pending replies.
    pub fn new(alloc: Global) -> Self
        ensures replies { result.replies ≡ [] }
        ensures more { result.more.items ≡ [] }
    {
        PendingOutput {
            replies: Replies::new(),
            more: Vec::new(alloc),
        }
    }

    /// Removes all pending replies.
    pub fn clear(&mut self)
        ensures replies { self.new.replies ≡ [] }
        ensures more { self.new.more.items ≡ [] }
    {
        self.replies.clear();
        self.more.clear();
    }

    /// Appends a reply: to those that are written at once if it is short, and else behind them.
    ///
    /// # Errors
    ///
    /// [`AllocError`] if allocation fails; the other replies stay.
    pub fn add(&mut self, reply: &[u8]) -> Result<(), AllocError>
        requires room { length self.old.replies + 256 ≤ 4096 }
        requires none { self.old.more.items ≡ [] }
        ensures ok { OnOk result (self.new.replies ++ self.new.more.items ≡ self.old.replies ++ reply.now) }
        ensures stands { Stands self.old.replies self.new.replies }
    {
        if reply.len() <= 256 {
            self.replies.extend(reply);
            return Ok(());
        }
        self.more.extend_from_slice(reply)
    }

    /// Returns whether there is room for the reply to another line, behind the others. It has at
    /// most 256 bytes.
    pub fn has_room(&self) -> bool
        ensures { IsTrue result ↔ ((length self.now.replies + 256 ≤ 4096) × (self.now.more.items ≡ [])) }
    {
        self.more.is_empty() && self.replies.as_slice().len() <= 3840
    }
}

/// Answers the lines of a script, one after another.
pub trait Session {
    /// What is printed for these lines.
    ghost transcript: { Self → List (List ℕ) → List ℕ };

    /// Whether the lines alone determine what is printed. Of a session that other threads have a part
    /// in, nothing is said but that no reply is pending when more is read.
    ghost is_determined: { Self → Type 0 };

    /// Answers a line, which comes without its line feed. The reply is appended to the pending
    /// replies.
    ///
    /// # Errors
    ///
    /// [`AllocError`] if allocation fails. The replies that were pending before are still to be
    /// written, and the session must not be used any more.
    fn answer(&mut self, line: &[u8], said: &mut PendingOutput) -> Result<(), AllocError>
        requires room { length said.old.replies + 256 ≤ 4096 }
        requires none { said.old.more.items ≡ [] }
        ensures ok { is_determined self.old → OnOk result ((lines : List (List ℕ))
            → still said.old.replies (transcript self.old) (line.now ∷ lines)
            ≡ still (said.new.replies ++ said.new.more.items) (transcript self.new) lines) }
        ensures determined { is_determined self.old → is_determined self.new }
        ensures err { OnErr result (Stands said.old.replies said.new.replies) };

    /// Hears that the pending replies are about to be written, and returns whether they may be. If
    /// not, they are dropped.
    fn may_write(&mut self) -> bool
        ensures may { is_determined self.old → result ≡ true }
        ensures same { is_determined self.old → transcript self.new ≡ transcript self.old }
        ensures determined { is_determined self.old → is_determined self.new };

    /// Hears that all replies are written and more is about to be read, and returns the prompt, if a
    /// user is to see one.
    fn before_read(&mut self) -> Option<&'static [u8]>
        ensures none { is_determined self.old → result ≡ None }
        ensures same { is_determined self.old → transcript self.new ≡ transcript self.old }
        ensures determined { is_determined self.old → is_determined self.new };

    /// Returns whether no more lines are to be answered.
    fn has_ended(&self) -> bool
        ensures { is_determined self.now → result ≡ false };

    ghost no_lines: { (s : Self) → transcript s [] ≡ [] };

    /// The bytes of a line past its 1,025th have no effect.
    ghost long_lines: { (s : Self) (a b : List ℕ) (lines : List (List ℕ)) → cut a ≡ cut b
        → transcript s (a ∷ lines) ≡ transcript s (b ∷ lines) };
}
