//! Lines with numbers: the counts of requests, a count, and the number of a put with notification.
ghost use Rattle.std.specs.Prelude.{◌≡◌, ◌+◌, ◌≤◌, ◌++◌, ◌∷◌, [], length, codes, decimal};
ghost use Rattle.ioc_main.specs.Replies.{count_words, tally_words};

use crate::reply_line::LineReply;
use ioc_ledger::Tally;
use ioc_notify::NotifyId;
use itoa::Buffer;

// Appends a word and a count, which has at most 20 digits.
fn add_count(line: &mut LineReply, word: &[u8], count: u64)
    requires { length line.old + length word.now + 20 ≤ 256 }
    ensures added { line.new ≡ line.old ++ word.now ++ decimal count }
    ensures length { length line.new ≤ length line.old + length word.now + 20 }
{
    line.extend(word);
    line.extend(Buffer::new().format(count).as_bytes());
}

/// Returns the line of a count, with its line feed.
#[tactic(auto, unfolding(crate::specs::Replies::count_words))]
pub fn count_line(count: u64) -> LineReply
    ensures { result ≡ count_words count ++ 10 ∷ [] }
{
    let mut line = LineReply::new();
    add_count(&mut line, b"ok ", count);
    line.push(b'\n');
    line
}

/// Returns the line with the number of a put with notification, with its line feed.
pub fn notify_line(number: NotifyId) -> LineReply
    ensures { result ≡ (codes "ok notify " ++ decimal number) ++ 10 ∷ [] }
{
    let mut line = LineReply::new();
    add_count(&mut line, b"ok notify ", number.number());
    line.push(b'\n');
    line
}

/// Returns the line of a put with notification that has ended, with its line feed.
#[inline(never)]
pub fn ended_line(number: NotifyId) -> LineReply
    ensures { result ≡ codes "ended " ++ decimal number ++ 10 ∷ [] }
{
    let mut line = LineReply::new();
    add_count(&mut line, b"ended ", number.number());
    line.push(b'\n');
    line
}

/// Returns the line of the counts of requests and of dropped items, with its line feed.
#[tactic(auto, unfolding(crate::specs::Replies::tally_words))]
pub fn tally_line(tally: &Tally, dropped: u64) -> LineReply
    ensures { result ≡ tally_words tally.now dropped ++ 10 ∷ [] }
{
    let mut line = LineReply::new();
    add_count(&mut line, b"tally begun=", tally.begun);
    add_count(&mut line, b" processed=", tally.processed);
    add_count(&mut line, b" disabled=", tally.disabled);
    add_count(&mut line, b" active=", tally.active);
    add_count(&mut line, b" reprocess=", tally.reprocess);
    add_count(&mut line, b" started=", tally.started);
    add_count(&mut line, b" completed=", tally.completed);
    add_count(&mut line, b" dropped=", dropped);
    line.push(b'\n');
    line
}
