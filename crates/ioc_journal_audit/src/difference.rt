//! How an entry differs from what the rules give.
use ioc_journal_file::Line;

/// How an entry of a journal differs from what the rules give after the entries before it.
#[derive(Drop)]
pub enum Difference {
    /// Its place isn't the number of entries before it, which is this.
    Place(u64),
    /// Its call number isn't the number of calls of its desk before it, which is this.
    DeskCall(u64),
    /// It begins a put with notification under this number, as an entry before it does.
    Notification(u64),
    /// Its reply isn't that of this entry, which the rules give.
    Reply(Line),
    /// Its answers aren't those of this entry: another number of them is used.
    Answers(Line),
}
