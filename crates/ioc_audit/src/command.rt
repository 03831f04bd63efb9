//! The command line of the program.
use clap::{Arg, ArgAction, ArgMatches, Command, value_parser};
use ioc_command_line::{
    Program, Stop, UsageFault, definitions_argument, definitions_in, file_argument, macros_in,
    macros_option, parse,
};
use ioc_dblex::Macros;
use std::alloc::{AllocError, Global};

/// The program, with its exit statuses behind its arguments.
pub const PROGRAM: Program<'static> = Program {
    name: "ioc-audit",
    version: "0.1.0",
    about: "Loads the database text DB, in which the macros NAME stand for VALUE, \
        makes the calls of the journal JOURNAL on it again, and tells whether all entries agree.",
    notes: "\
An entry agrees if its place and its call number are the next ones, and if the records before it and \
    the answers of its devices give its reply and use all of these answers.

With -d FILE, -m before it, -I DIR and --adapt the database is that of a site's files in place of DB, as with \
    ioc-replay.

The exit status: 0 all entries agree, 1 the database is refused, it isn't that of the journal, an \
    entry differs, a line is no entry, or the journal isn't whole and has to be, 2 the command line is wrong, \
    3 a file cannot be read or what is found cannot be written, 4 memory ran out",
};

// The names of arguments.
const DATABASE: &str = "DB";

const JOURNAL: &str = "JOURNAL";

const AT: &str = "at";

const SHOW: &str = "show";

const TRACE: &str = "trace";

const WATCH: &str = "watch";

const SETS: &str = "sets";

const WHOLE: &str = "whole";

const SEALED: &str = "sealed";

/// What a command line asks for.
#[derive(Drop)]
pub struct Words<'a> {
    /// The path of the database text.
    pub database: &'a str,
    /// The path of the journal.
    pub journal: &'a str,
    pub macros: Macros,
    /// The place of the last entry that is checked, if not all are.
    pub at: Option<u64>,
    /// The fields that are shown, each as `REC.F`, or `REC` for its field VAL.
    pub shown: Vec<&'a str>,
    /// The names of the records whose changes are shown.
    pub traced: Vec<&'a str>,
    /// The fields that are watched, each as `REC.F`, as `REC.F#` for the number behind it, or as `REC` for
    /// its field VAL.
    pub watched: Vec<&'a str>,
    /// Whether the lock sets are shown.
    pub sets: bool,
    /// Whether the run has to have ended.
    pub whole: bool,
    /// Whether the journal has to have seals.
    pub sealed: bool,
    /// The definitions of macros, each behind a byte 0.
    pub definitions: Vec<u8>,
}

// Adds the options of what is shown.
fn with_shown<'a>(alloc: Global, command: Command<'a>) -> Result<Command<'a>, AllocError> {
    command
        .arg(
            Arg::new(alloc, SHOW)
                .long(SHOW)
                .value_name("REC.F")
                .action(ArgAction::Append)
                .help("shows the field F of the record REC at the end, VAL if there is no F"),
        )?
        .arg(
            Arg::new(alloc, TRACE)
                .long(TRACE)
                .value_name("REC")
                .action(ArgAction::Append)
                .help("shows each entry that changes the record REC, and what it changes"),
        )?
        .arg(
            Arg::new(alloc, WATCH)
                .long(WATCH)
                .value_name("REC.F")
                .action(ArgAction::Append)
                .help(
                    "shows the field F of the record REC at the start and at each change that is due, as ioc tells a watched one",
                ),
        )?
        .arg(
            Arg::new(alloc, SETS)
                .long(SETS)
                .action(ArgAction::SetTrue)
                .help("shows the lock sets at the end"),
        )
}

// Adds the options of which journals are taken.
fn with_taken<'a>(alloc: Global, command: Command<'a>) -> Result<Command<'a>, AllocError> {
    command
        .arg(
            Arg::new(alloc, WHOLE)
                .long(WHOLE)
                .action(ArgAction::SetTrue)
                .help(
                    "takes a journal only if its run has ended, and it is sealed to its end if it has seals",
                ),
        )?
        .arg(
            Arg::new(alloc, SEALED)
                .long(SEALED)
                .action(ArgAction::SetTrue)
                .help("takes a journal only if it has seals"),
        )
}

// Adds the options of the command.
fn with_options<'a>(alloc: Global, command: Command<'a>) -> Result<Command<'a>, AllocError> {
    let command = command.arg(
        Arg::new(alloc, AT)
            .long(AT)
            .value_name("PLACE")
            .value_parser(value_parser!(u64))
            .help("stops after the entry at this place"),
    )?;
    with_taken(alloc, with_shown(alloc, command)?)
}

// Returns the command of the program.
fn command<'a>(alloc: Global) -> Result<Command<'a>, AllocError> {
    let command = PROGRAM
        .command(alloc)
        .arg(file_argument(alloc, DATABASE, "the database text"))?
        .arg(file_argument(
            alloc,
            JOURNAL,
            "the journal; where it is - it is standard input",
        ))?
        .arg(definitions_argument(alloc))?
        .arg(macros_option(alloc))?;
    with_options(alloc, command)
}

// Returns the words of an option that may be given several times.
fn all_of<'a>(
    alloc: Global,
    matches: &ArgMatches<'a>,
    id: &str,
) -> Result<Vec<&'a str>, AllocError> {
    let mut words = Vec::new(alloc);
    for word in matches.get_strs(id).unwrap_or(&[]) {
        words.push(*word)?;
    }
    Ok(words)
}

impl<'a> Words<'a> {
    /// Parses the words of a command line: the program's name, DB, JOURNAL, definitions of macros
    /// and options.
    ///
    /// # Errors
    ///
    /// [`Stop::Shown`] if the words ask for help or for the version. [`Stop::Refused`] and
    /// [`Stop::Usage`] if they are wrong. [`Stop::Memory`] if allocation fails.
    pub fn from_words(alloc: Global, words: &'a [String]) -> Result<Words<'a>, Stop> {
        let matches = parse(alloc, command(alloc)?, words)?;
        let (Some(database), Some(journal)) = (matches.get_str(DATABASE), matches.get_str(JOURNAL))
        else {
            return Err(Stop::Usage(UsageFault::NoArgument));
        };
        Ok(Words {
            database,
            journal,
            macros: macros_in(alloc, &matches)?,
            at: matches.get_one::<u64>(AT),
            shown: all_of(alloc, &matches, SHOW)?,
            traced: all_of(alloc, &matches, TRACE)?,
            watched: all_of(alloc, &matches, WATCH)?,
            sets: matches.get_flag(SETS),
            whole: matches.get_flag(WHOLE),
            sealed: matches.get_flag(SEALED),
            definitions: definitions_in(alloc, &matches)?,
        })
    }

    /// Returns how many entries of a file are checked at most, of which the first one has this place.
    pub fn most(&self, first: u64) -> u64 {
        match self.at {
            Some(place) => place.saturating_add(1).saturating_sub(first),
            None => u64::MAX,
        }
    }
}
