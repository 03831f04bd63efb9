//! The first words of lines, and where each is known.
ghost use Rattle.std.specs.Prelude.{◌≡◌};
ghost use Rattle.ioc_commands.specs.Verbs.{knows, most_bytes, program_verb_named, user_verb_named, verb_named};

/// The first word of a line.
#[derive(Clone, Copy, PartialEq, Eq, Debug)]
pub enum Verb {
    Process,
    Put,
    /// The word `dbpf`, which is `put` in the shell of an IOC.
    Dbpf,
    Get,
    /// The word `dbgf`, which is `get` in the shell of an IOC.
    Dbgf,
    Notify,
    Cancel,
    Event,
    Interrupt,
    Scan,
    Link,
    Sets,
    At,
    Next,
    Done,
    Fault,
    Tally,
    Tick,
    Checkpoint,
    List,
    Show,
    /// The word `put#`, for programs: a put whose reply has its place in the journal.
    PutPlaced,
    /// The word `notify#`, for programs: a put with notification whose reply has its place.
    NotifyPlaced,
    /// The word `read`, for programs: fields of a record at one moment.
    Read,
    Records,
    Fields,
    /// The word `menu`.
    Choices,
    Watch,
    Unwatch,
    Status,
    Help,
    Exit,
}

/// Who speaks: which first words a line may have.
#[derive(Clone, Copy, PartialEq, Eq, Debug)]
pub enum Dialect {
    /// A script of `ioc-replay`.
    Script,
    /// A user of `ioc-replay` at a terminal.
    Prompt,
    /// The console of `ioc`.
    Console,
    /// The console of an `ioc` that has a clock of its own.
    Live,
}

impl Verb {
    /// Returns the first word with this spelling.
    pub fn from_word(word: &[u8]) -> Option<Verb>
        ensures { result ≡ verb_named word.now }
    {
        if word == b"process".as_slice() {
            Some(Verb::Process)
        } else if word == b"put".as_slice() {
            Some(Verb::Put)
        } else if word == b"get".as_slice() {
            Some(Verb::Get)
        } else if word == b"at".as_slice() {
            Some(Verb::At)
        } else if word == b"next".as_slice() {
            Some(Verb::Next)
        } else if word == b"done".as_slice() {
            Some(Verb::Done)
        } else if word == b"fault".as_slice() {
            Some(Verb::Fault)
        } else if word == b"event".as_slice() {
            Some(Verb::Event)
        } else if word == b"io".as_slice() {
            Some(Verb::Interrupt)
        } else if word == b"scan".as_slice() {
            Some(Verb::Scan)
        } else if word == b"notify".as_slice() {
            Some(Verb::Notify)
        } else if word == b"cancel".as_slice() {
            Some(Verb::Cancel)
        } else if word == b"link".as_slice() {
            Some(Verb::Link)
        } else if word == b"tally".as_slice() {
            Some(Verb::Tally)
        } else if word == b"sets".as_slice() {
            Some(Verb::Sets)
        } else {
            of_a_user(word)
        }
    }
}

// Returns the first word with this spelling, of those that no script has.
fn of_a_user(word: &[u8]) -> Option<Verb>
    ensures { result ≡ user_verb_named word.now }
{
    if word == b"dbpf".as_slice() {
        Some(Verb::Dbpf)
    } else if word == b"dbgf".as_slice() {
        Some(Verb::Dbgf)
    } else if word == b"tick".as_slice() {
        Some(Verb::Tick)
    } else if word == b"checkpoint".as_slice() {
        Some(Verb::Checkpoint)
    } else if word == b"dbl".as_slice() {
        Some(Verb::List)
    } else if word == b"dbpr".as_slice() {
        Some(Verb::Show)
    } else if word == b"help".as_slice() {
        Some(Verb::Help)
    } else if word == b"exit".as_slice() {
        Some(Verb::Exit)
    } else {
        of_a_program(word)
    }
}

// Returns the first word with this spelling, of those that are meant for programs.
fn of_a_program(word: &[u8]) -> Option<Verb>
    ensures { result ≡ program_verb_named word.now }
{
    if word == b"put#".as_slice() {
        Some(Verb::PutPlaced)
    } else if word == b"notify#".as_slice() {
        Some(Verb::NotifyPlaced)
    } else if word == b"read".as_slice() {
        Some(Verb::Read)
    } else if word == b"records".as_slice() {
        Some(Verb::Records)
    } else if word == b"fields".as_slice() {
        Some(Verb::Fields)
    } else if word == b"menu".as_slice() {
        Some(Verb::Choices)
    } else if word == b"watch".as_slice() {
        Some(Verb::Watch)
    } else if word == b"unwatch".as_slice() {
        Some(Verb::Unwatch)
    } else if word == b"status".as_slice() {
        Some(Verb::Status)
    } else {
        None
    }
}

impl Dialect {
    /// Returns whether a line may begin with this word.
    pub fn knows(self, verb: Verb) -> bool
        ensures { result ≡ knows self verb }
    {
        match verb {
            Verb::Process
            | Verb::Put
            | Verb::Get
            | Verb::Notify
            | Verb::Cancel
            | Verb::Event
            | Verb::Interrupt
            | Verb::Scan
            | Verb::Link
            | Verb::Sets
            | Verb::Done
            | Verb::Fault => true,
            Verb::At | Verb::Next | Verb::Tally => {
                matches!(self, Dialect::Script | Dialect::Prompt)
            }
            Verb::Dbpf | Verb::Dbgf | Verb::Help | Verb::Exit => self != Dialect::Script,
            Verb::Tick => self == Dialect::Console,
            Verb::Checkpoint
            | Verb::List
            | Verb::Show
            | Verb::PutPlaced
            | Verb::NotifyPlaced
            | Verb::Read
            | Verb::Records
            | Verb::Fields
            | Verb::Choices
            | Verb::Watch
            | Verb::Unwatch
            | Verb::Status => matches!(self, Dialect::Console | Dialect::Live),
        }
    }

    /// Returns how many bytes a line may have, without its line feed.
    pub fn most_bytes(self) -> usize
        ensures { result ≡ most_bytes self }
    {
        match self {
            Dialect::Script | Dialect::Prompt => 1024,
            Dialect::Console | Dialect::Live => 4096,
        }
    }
}
