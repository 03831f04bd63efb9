//! What a line of a user asks for.
ghost use Rattle.std.specs.Prelude.{◌≡◌, option_map};
ghost use Rattle.ioc_commands.specs.Seen.{bytes};
ghost use Rattle.ioc_commands.specs.Verbs.{verb_named};
ghost use Rattle.ioc_commands.specs.Commands.{before, behind};
ghost use Rattle.ioc_commands.specs.Requests.{request_of, by_any, asked_by, seen, ticks_of, one_word, listed, shown, alone};
ghost use Rattle.ioc_commands.specs.Requests.{fields_of, choices_of, watch_of, unwatch_of, placed_of, read_of};

use crate::command::{Command, by_verb, channel};
use crate::parts::cut_at;
use crate::verb::{Dialect, Verb};
use ioc_values::number::decimal;

/// The largest number of ticks of a line.
pub const MAX_TICKS_OF_A_LINE: u64 = 1_000_000;

/// What a line of a user asks for.
///
/// ```rust
/// // The records whose names begin with `tank:`.
/// let request = Request::from_line(Dialect::Console, b"dbl tank:*");
/// ```
#[derive(Clone, Copy)]
pub enum Request<'a> {
    /// What this command of a script asks for.
    Command(Command<'a>),
    /// Walks the periods of so many ticks, from 1 to [`MAX_TICKS_OF_A_LINE`].
    Tick(u64),
    /// Makes a checkpoint of the journal.
    Checkpoint,
    /// Prints the names of the records that a word stands for, which is a type or a pattern, and if
    /// there is a second word, of those of a type that the second stands for.
    List(&'a [u8], Option<&'a [u8]>),
    /// Prints the fields of the record with this name.
    Show(&'a [u8]),
    /// A record, a field of it, and the text to put, with escapes; prints the place too.
    PutPlaced(&'a [u8], &'a [u8], &'a [u8]),
    /// The same of a put with notification.
    NotifyPlaced(&'a [u8], &'a [u8], &'a [u8]),
    /// Prints fields of the record with this name, all of one moment. Their names are words.
    Read(&'a [u8], &'a [u8]),
    /// Prints the records with their types.
    Records,
    /// Prints the fields of this record type with their kinds.
    Fields(&'a [u8]),
    /// Prints the choices of the menu with this name.
    Choices(&'a [u8]),
    /// Watches the field that a word names, or the number behind it.
    Watch(&'a [u8]),
    /// Watches no more what a word names.
    Unwatch(&'a [u8]),
    /// Prints how the program is doing.
    Status,
    Help,
    /// Ends the lines.
    Exit,
}

#[tactic(auto, unfolding(crate::specs::Requests::request_of))]
impl<'a> Request<'a> {
    /// Returns what a line of a speaker asks for, which comes without its line feed. A record alone
    /// is its field VAL in gets and puts.
    pub fn from_line(dialect: Dialect, line: &'a [u8]) -> Self
        ensures { seen result ≡ request_of dialect line.now }
    {
        if line.len() > dialect.most_bytes() {
            return Request::Command(Command::Bad);
        }
        match line {
            [] => Request::Command(Command::Silent),
            [b'#', ..] => Request::Command(Command::Silent),
            [_, ..] => by_first_word(dialect, line),
        }
    }
}

// Returns what a line asks for by its first word.
fn by_first_word(dialect: Dialect, line: &[u8]) -> Request<'_>
    ensures { seen result ≡ by_any dialect (verb_named (before 32 line.now)) (behind 32 line.now) }
{
    let (word, words) = cut_at(line, b' ');
    match Verb::from_word(word) {
        Some(verb) if dialect.knows(verb) => asked_by(verb, words),
        _ => Request::Command(Command::Bad),
    }
}

// Returns what a first word and what is behind it ask for.
fn asked_by<'a>(verb: Verb, words: Option<&'a [u8]>) -> Request<'a>
    ensures { seen result ≡ asked_by verb (option_map bytes words.entry) }
{
    match verb {
        Verb::Tick => tick(words),
        Verb::List => list(words),
        Verb::Show => show(words),
        Verb::PutPlaced => placed(false, words),
        Verb::NotifyPlaced => placed(true, words),
        Verb::Read => read(words),
        Verb::Records => alone(words, Request::Records),
        Verb::Fields => fields(words),
        Verb::Choices => menu(words),
        Verb::Watch => watched(words),
        Verb::Unwatch => unwatched(words),
        Verb::Status => alone(words, Request::Status),
        Verb::Checkpoint => alone(words, Request::Checkpoint),
        Verb::Help => alone(words, Request::Help),
        Verb::Exit => alone(words, Request::Exit),
        _ => Request::Command(by_verb(true, verb, words)),
    }
}

// Returns this request, if nothing is behind its word.
fn alone<'a>(words: Option<&'a [u8]>, request: Request<'a>) -> Request<'a>
    ensures { seen result ≡ alone (option_map bytes words.entry) (seen request.entry) }
{
    match words {
        Some(_) => Request::Command(Command::Bad),
        None => request,
    }
}

fn tick<'a>(words: Option<&'a [u8]>) -> Request<'a>
    ensures { seen result ≡ ticks_of (option_map bytes words.entry) }
{
    let Some(word) = words else {
        return Request::Tick(1);
    };
    match decimal(word) {
        Some(count) if 1 <= count && count <= MAX_TICKS_OF_A_LINE => Request::Tick(count),
        _ => Request::Command(Command::Bad),
    }
}

// Returns the one word that is behind a first word, if there is just one.
fn one_word<'a>(words: Option<&'a [u8]>) -> Option<&'a [u8]>
    ensures { option_map bytes result ≡ one_word (option_map bytes words.entry) }
{
    match cut_at(words?, b' ') {
        ([], _) | (_, Some(_)) => None,
        (word, None) => Some(word),
    }
}

fn show<'a>(words: Option<&'a [u8]>) -> Request<'a>
    ensures { seen result ≡ shown (option_map bytes words.entry) }
{
    match one_word(words) {
        Some(record) => Request::Show(record),
        None => Request::Command(Command::Bad),
    }
}

fn fields<'a>(words: Option<&'a [u8]>) -> Request<'a>
    ensures { seen result ≡ fields_of (option_map bytes words.entry) }
{
    match one_word(words) {
        Some(record_type) => Request::Fields(record_type),
        None => Request::Command(Command::Bad),
    }
}

fn menu<'a>(words: Option<&'a [u8]>) -> Request<'a>
    ensures { seen result ≡ choices_of (option_map bytes words.entry) }
{
    match one_word(words) {
        Some(name) => Request::Choices(name),
        None => Request::Command(Command::Bad),
    }
}

fn watched<'a>(words: Option<&'a [u8]>) -> Request<'a>
    ensures { seen result ≡ watch_of (option_map bytes words.entry) }
{
    match one_word(words) {
        Some(word) => Request::Watch(word),
        None => Request::Command(Command::Bad),
    }
}

fn unwatched<'a>(words: Option<&'a [u8]>) -> Request<'a>
    ensures { seen result ≡ unwatch_of (option_map bytes words.entry) }
{
    match one_word(words) {
        Some(word) => Request::Unwatch(word),
        None => Request::Command(Command::Bad),
    }
}

fn list<'a>(words: Option<&'a [u8]>) -> Request<'a>
    ensures { seen result ≡ listed (option_map bytes words.entry) }
{
    let Some(words) = words else {
        return Request::List(b"*", None);
    };
    let (first, more) = cut_at(words, b' ');
    match (first, more) {
        ([], _) => Request::Command(Command::Bad),
        (_, None) => Request::List(first, None),
        (_, Some(_)) => match one_word(more) {
            Some(pattern) => Request::List(first, Some(pattern)),
            None => Request::Command(Command::Bad),
        },
    }
}

fn read<'a>(words: Option<&'a [u8]>) -> Request<'a>
    ensures { seen result ≡ read_of (option_map bytes words.entry) }
{
    let Some(words) = words else {
        return Request::Command(Command::Bad);
    };
    match cut_at(words, b' ') {
        ([], _) | (_, None | Some([])) => Request::Command(Command::Bad),
        (record, Some(fields)) => Request::Read(record, fields),
    }
}

// Returns a put whose reply has its place, with a notification or without one.
fn placed<'a>(notifies: bool, words: Option<&'a [u8]>) -> Request<'a>
    ensures { seen result ≡ placed_of notifies (option_map bytes words.entry) }
{
    let Some(words) = words else {
        return Request::Command(Command::Bad);
    };
    let (word, text) = cut_at(words, b' ');
    let (record, field) = channel(true, word);
    let text = text.unwrap_or(b"");
    match field {
        Some(field) if notifies => Request::NotifyPlaced(record, field, text),
        Some(field) => Request::PutPlaced(record, field, text),
        None => Request::Command(Command::Bad),
    }
}
