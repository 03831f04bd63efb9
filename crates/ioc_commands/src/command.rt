//! Commands of a script.
ghost use Rattle.std.specs.Prelude.{◌≡◌, false, option_map};
ghost use Rattle.std.specs.Option.{IfSome};
ghost use Rattle.ioc_commands.specs.Commands.{before, behind, command_of, worded, by_verb, of_one_word, with_words, is_silent};
ghost use Rattle.ioc_commands.specs.Commands.{field_of_word, process_of, put_of, get_of, at_of, next_by, next_of, done_of, fault_of};
ghost use Rattle.ioc_commands.specs.Commands.{interrupt_of, period_named, scan_of, notify_of, cancel_of, link_of};
ghost use Rattle.ioc_commands.specs.Seen.{seen, bytes};

use crate::parts::cut_at;
use crate::verb::{Dialect, Verb};
use ioc_menus::{Menu, Scan, choice};
use ioc_scan::Period;
use ioc_scan::period::period_of;
use ioc_values::number::decimal;

/// The command of a line of a script.
#[derive(Clone, Copy)]
pub enum Command<'a> {
    /// An empty line or a comment, for which nothing is printed.
    Silent,
    /// A line that isn't a valid command.
    Bad,
    Process(&'a [u8]),
    /// A record, a field of it, and the text to put.
    Put(&'a [u8], &'a [u8], &'a [u8]),
    /// A record, and a field of it.
    Get(&'a [u8], &'a [u8]),
    /// The time stamp of the following lines, in nanoseconds since 1970-01-01 00:00 UTC.
    At(u64),
    /// Queues this text as an answer of the device of a record, behind the answers that it has.
    NextDone(&'a [u8], &'a [u8]),
    /// Queues a fault as an answer of the device.
    NextFault(&'a [u8]),
    /// Queues an asynchronous answer of the device.
    NextLater(&'a [u8]),
    /// Completes a record with this text as the asynchronous answer of its device. The number is
    /// that of the completion that the record awaits.
    Done(&'a [u8], u64, &'a [u8]),
    /// Completes a record with a fault as the asynchronous answer of its device.
    Fault(&'a [u8], u64),
    /// Posts the event with this name.
    Event(&'a [u8]),
    /// An interrupt of the devices whose links begin with this word.
    Interrupt(&'a [u8]),
    /// Scans the list of a period.
    Scan(Period),
    /// A record, a link field of it, and the text of its new link.
    Link(&'a [u8], &'a [u8], &'a [u8]),
    /// Prints the counts of requests.
    Tally,
    /// A record, a field of it, and the text to put there with a notification.
    Notify(&'a [u8], &'a [u8], &'a [u8]),
    /// Cancels the put with notification with this number.
    Cancel(u64),
    /// Prints the connected parts.
    Sets,
}

#[tactic(auto, unfolding(crate::specs::Commands::command_of))]
impl<'a> Command<'a> {
    /// Returns the command of a line, which comes without its line feed.
    pub fn from_line(line: &'a [u8]) -> Self
        ensures { seen result ≡ command_of line.now }
    {
        if line.len() > 1024 {
            return Command::Bad;
        }
        match line {
            [] => Command::Silent,
            [b'#', ..] => Command::Silent,
            [_, ..] => worded(line),
        }
    }

    /// Returns whether nothing is printed for the line.
    pub fn is_silent(&self) -> bool
        ensures { result ≡ is_silent (seen self.now) }
    {
        matches!(self, Command::Silent)
    }
}

// Returns the command of a line of words that are separated by one space. Gets, puts and requests
// are recognized by their first bytes, because most lines are these.
#[tactic(auto, using(crate::proofs::Verbs::get_line, crate::proofs::Verbs::put_line, crate::proofs::Verbs::process_line))]
fn worded(line: &[u8]) -> Command<'_>
    ensures { seen result ≡ worded line.now }
{
    match line {
        [b'g', b'e', b't', b' ', words @ ..] => with_words(false, Verb::Get, words),
        [b'p', b'u', b't', b' ', words @ ..] => with_words(false, Verb::Put, words),
        [b'p', b'r', b'o', b'c', b'e', b's', b's', b' ', words @ ..] => {
            with_words(false, Verb::Process, words)
        }
        _ => by_first_word(line),
    }
}

/// Returns the words behind `put` if the line is a put. It is recognized by its first bytes and
/// without creating a command, which is as large as its largest variant.
#[inline(always)]
#[tactic(auto, unfolding(crate::specs::Commands::command_of), using(crate::proofs::Verbs::put_line))]
pub fn words_of_put(line: &[u8]) -> Option<&[u8]>
    ensures { IfSome result (λ words. command_of line.now ≡ put_of false (before 32 words.now) (behind 32 words.now)) }
{
    if line.len() > 1024 {
        return None;
    }
    match line {
        [b'p', b'u', b't', b' ', words @ ..] => Some(words),
        _ => None,
    }
}

// Returns the command of a line of a script by its first word.
#[inline(never)]
fn by_first_word(line: &[u8]) -> Command<'_>
    ensures { seen result ≡ worded line.now }
{
    let (word, words) = cut_at(line, b' ');
    match Verb::from_word(word) {
        Some(verb) if Dialect::Script.knows(verb) => by_verb(false, verb, words),
        _ => Command::Bad,
    }
}

/// Returns the command of a first word and what is behind it. If `is_value`, a record alone is its
/// field VAL in gets and puts.
pub fn by_verb<'a>(is_value: bool, verb: Verb, words: Option<&'a [u8]>) -> Command<'a>
    ensures { seen result ≡ by_verb is_value verb (option_map bytes words.entry) }
{
    match words {
        Some(words) => with_words(is_value, verb, words),
        None => of_one_word(verb),
    }
}

// Returns the command of a line of one word.
fn of_one_word<'a>(verb: Verb) -> Command<'a>
    ensures { seen result ≡ of_one_word verb }
{
    match verb {
        Verb::Tally => Command::Tally,
        Verb::Event => Command::Event(b""),
        Verb::Sets => Command::Sets,
        _ => Command::Bad,
    }
}

// Returns the command of a first word and the words behind it.
#[inline(always)]
fn with_words(is_value: bool, verb: Verb, words: &[u8]) -> Command<'_>
    ensures { seen result ≡ with_words is_value verb words.now }
{
    let (word, text) = cut_at(words, b' ');
    match verb {
        Verb::Process => process(word, text),
        Verb::Put | Verb::Dbpf => put(is_value, word, text),
        Verb::Get | Verb::Dbgf => get(is_value, word, text),
        Verb::At => at(word, text),
        Verb::Next => next(word, text),
        Verb::Done => done(word, text),
        Verb::Fault => fault(word, text),
        Verb::Event => Command::Event(words),
        Verb::Interrupt => interrupt(word, text),
        Verb::Scan => scan(words),
        Verb::Notify => notify(is_value, word, text),
        Verb::Cancel => cancel(word, text),
        Verb::Link => link(word, text),
        Verb::Tally
        | Verb::Sets
        | Verb::Tick
        | Verb::Checkpoint
        | Verb::List
        | Verb::Show
        | Verb::PutPlaced
        | Verb::NotifyPlaced
        | Verb::Read
        | Verb::Records
        | Verb::Fields
        | Verb::Choices
        | Verb::Watch
        | Verb::Unwatch
        | Verb::Status
        | Verb::Help
        | Verb::Exit => Command::Bad,
    }
}

// Returns the record and the field of a word, which is cut at its first dot. If `is_value`, a record
// alone is its field VAL.
#[inline(always)]
pub(crate) fn channel(is_value: bool, word: &[u8]) -> (&[u8], Option<&[u8]>)
    ensures record { result.0.now ≡ before 46 word.now }
    ensures field { option_map bytes result.1 ≡ field_of_word is_value word.now }
{
    let (record, field) = cut_at(word, b'.');
    if !is_value {
        return (record, field);
    }
    match word {
        [] => (record, None),
        [_, ..] => (record, Some(field.unwrap_or(b"VAL"))),
    }
}

fn link<'a>(word: &'a [u8], text: Option<&'a [u8]>) -> Command<'a>
    ensures { seen result ≡ link_of word.now (option_map bytes text.entry) }
{
    let (record, field) = cut_at(word, b'.');
    match field {
        Some(field) => Command::Link(record, field, text.unwrap_or(b"")),
        None => Command::Bad,
    }
}

fn notify<'a>(is_value: bool, word: &'a [u8], text: Option<&'a [u8]>) -> Command<'a>
    ensures { seen result ≡ notify_of is_value word.now (option_map bytes text.entry) }
{
    let (record, field) = channel(is_value, word);
    match field {
        Some(field) => Command::Notify(record, field, text.unwrap_or(b"")),
        None => Command::Bad,
    }
}

fn cancel<'a>(word: &'a [u8], more: Option<&'a [u8]>) -> Command<'a>
    ensures { seen result ≡ cancel_of word.now (option_map bytes more.entry) }
{
    match (decimal(word), more) {
        (Some(number), None) => Command::Cancel(number),
        (None, _) | (Some(_), Some(_)) => Command::Bad,
    }
}

fn interrupt<'a>(word: &'a [u8], more: Option<&'a [u8]>) -> Command<'a>
    ensures { seen result ≡ interrupt_of word.now (option_map bytes more.entry) }
{
    match (word, more) {
        ([], _) | (_, Some(_)) => Command::Bad,
        ([_, ..], None) => Command::Interrupt(word),
    }
}

// Returns the period of a choice of SCAN.
fn period(text: &[u8]) -> Option<Period>
    ensures { result ≡ period_named text.now }
{
    period_of(Scan::from_number(choice(Menu::Scan, text)?)?)
}

fn scan(text: &[u8]) -> Command<'_>
    ensures { seen result ≡ scan_of text.now }
{
    match period(text) {
        Some(period) => Command::Scan(period),
        None => Command::Bad,
    }
}

fn process<'a>(word: &'a [u8], more: Option<&'a [u8]>) -> Command<'a>
    ensures { seen result ≡ process_of word.now (option_map bytes more.entry) }
{
    match (word, more) {
        ([], _) | (_, Some(_)) => Command::Bad,
        ([_, ..], None) => Command::Process(word),
    }
}

fn put<'a>(is_value: bool, word: &'a [u8], text: Option<&'a [u8]>) -> Command<'a>
    ensures { seen result ≡ put_of is_value word.now (option_map bytes text.entry) }
{
    let (record, field) = channel(is_value, word);
    match (field, text) {
        (None, _) => Command::Bad,
        (Some(field), Some(text)) => Command::Put(record, field, text),
        (Some(field), None) => Command::Put(record, field, b""),
    }
}

fn get<'a>(is_value: bool, word: &'a [u8], more: Option<&'a [u8]>) -> Command<'a>
    ensures { seen result ≡ get_of is_value word.now (option_map bytes more.entry) }
{
    let (record, field) = channel(is_value, word);
    match (field, more) {
        (None, _) | (Some(_), Some(_)) => Command::Bad,
        (Some(field), None) => Command::Get(record, field),
    }
}

fn at<'a>(word: &'a [u8], more: Option<&'a [u8]>) -> Command<'a>
    ensures { seen result ≡ at_of word.now (option_map bytes more.entry) }
{
    match (decimal(word), more) {
        (Some(moment), None) => Command::At(moment),
        (None, _) | (Some(_), Some(_)) => Command::Bad,
    }
}

// Queues an answer of this kind.
fn next_by<'a>(name: &'a [u8], word: &'a [u8], text: Option<&'a [u8]>) -> Command<'a>
    ensures { seen result ≡ next_by name.now word.now (option_map bytes text.entry) }
{
    if word == b"done".as_slice() {
        return Command::NextDone(name, text.unwrap_or(b""));
    }
    if text.is_some() {
        Command::Bad
    } else if word == b"fault".as_slice() {
        Command::NextFault(name)
    } else if word == b"later".as_slice() {
        Command::NextLater(name)
    } else {
        Command::Bad
    }
}

fn next<'a>(name: &'a [u8], words: Option<&'a [u8]>) -> Command<'a>
    ensures { seen result ≡ next_of name.now (option_map bytes words.entry) }
{
    match (name, words) {
        ([], _) | (_, None) => Command::Bad,
        ([_, ..], Some(words)) => {
            let (word, text) = cut_at(words, b' ');
            next_by(name, word, text)
        }
    }
}

fn done<'a>(name: &'a [u8], words: Option<&'a [u8]>) -> Command<'a>
    ensures { seen result ≡ done_of name.now (option_map bytes words.entry) }
{
    match (name, words) {
        ([], _) | (_, None) => Command::Bad,
        ([_, ..], Some(words)) => {
            let (number, text) = cut_at(words, b' ');
            match decimal(number) {
                Some(wait) => Command::Done(name, wait, text.unwrap_or(b"")),
                None => Command::Bad,
            }
        }
    }
}

fn fault<'a>(name: &'a [u8], words: Option<&'a [u8]>) -> Command<'a>
    ensures { seen result ≡ fault_of name.now (option_map bytes words.entry) }
{
    match (name, words) {
        ([], _) | (_, None) => Command::Bad,
        ([_, ..], Some(word)) => match decimal(word) {
            Some(wait) => Command::Fault(name, wait),
            None => Command::Bad,
        },
    }
}
