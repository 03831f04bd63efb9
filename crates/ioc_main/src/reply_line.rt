//! The lines of replies.
ghost use Rattle.std.specs.Prelude.{◌≡◌, ◌+◌, ◌<◌, ◌≤◌, ◌++◌, ◌∷◌, [], length};
ghost use Rattle.ioc_values.specs.Words.{refusal_words};
ghost use Rattle.ioc_main.specs.Replies.{outcome_words, reply_words};

use crate::counts::notify_line;
use ioc_events::Reply;
use ioc_ledger::Outcome;
use ioc_values::{ByteBuffer, IocError};

/// A line with numbers, with its line feed. The longest is that of the counts of requests, of at
/// most 20 digits each.
pub type LineReply = ByteBuffer<256>;

// Appends a line of words.
fn say_words<const CAP: usize>(out: &mut ByteBuffer<CAP>, words: &[u8])
    requires { length out.old + length words.now < CAP }
    ensures { out.new ≡ out.old ++ words.now ++ 10 ∷ [] }
{
    out.extend(words);
    out.push(b'\n');
}

// Appends the line of an outcome. Each outcome has its own copy, of a length that is known.
#[tactic(auto, unfolding(crate::specs::Replies::outcome_words))]
fn say_outcome<const CAP: usize>(out: &mut ByteBuffer<CAP>, outcome: Outcome)
    requires { length out.old + 256 ≤ CAP }
    ensures { out.new ≡ out.old ++ outcome_words outcome ++ 10 ∷ [] }
{
    match outcome {
        Outcome::Processed => out.extend(b"ok processed\n"),
        Outcome::Disabled => out.extend(b"ok disabled\n"),
        Outcome::Active => out.extend(b"ok active\n"),
        Outcome::Reprocess => out.extend(b"ok reprocess\n"),
    }
}

/// Appends the line of a reply, with its line feed. There must be room for 256 bytes.
#[tactic(auto, using(crate::proofs::Words::refusal_short))]
pub fn say_reply<const CAP: usize>(out: &mut ByteBuffer<CAP>, reply: &Reply)
    requires { length out.old + 256 ≤ CAP }
    ensures { out.new ≡ out.old ++ reply_words reply.now ++ 10 ∷ [] }
{
    match reply {
        Reply::Plain => say_words(out, b"ok"),
        Reply::Outcome(outcome) => say_outcome(out, *outcome),
        Reply::Notify(number) => out.extend(notify_line(*number).as_slice()),
        Reply::Refused(refused) => say_refusal(out, *refused),
    }
}

/// Appends the line of a refusal, with its line feed. There must be room for 256 bytes.
#[inline(never)]
#[tactic(auto, using(crate::proofs::Words::refusal_short))]
pub fn say_refusal<const CAP: usize>(out: &mut ByteBuffer<CAP>, refused: IocError)
    requires { length out.old + 256 ≤ CAP }
    ensures { out.new ≡ out.old ++ refusal_words refused ++ 10 ∷ [] }
{
    say_words(out, refused.words().as_bytes());
}
