//! The words of a command line.
ghost use Rattle.std.specs.Prelude.{◌≡◌, IfOk, IfErr, false, map};
ghost use Rattle.std.specs.String.{string_bytes};
ghost use Rattle.std.specs.Vec.Iter.{into_iter_items};
ghost use Rattle.clap.specs.Words.{HasMatchesOf, app_of, kind_of, rule_of};
ghost use Rattle.ioc_command_line.specs.CommandLine.{Tells, RefusesWords, program_app, file_rule, definitions_rule, macros_rule};
ghost use Rattle.ioc_command_line.specs.CommandLine.{WasNotGiven};

use crate::ending::{Stage, Stop, UsageFault};
use crate::reason::is_out_of_memory;
use clap::error::ErrorKind;
use clap::{Arg, ArgAction, ArgMatches, Command, Error};
use std::alloc::{AllocError, Global};
use std::env::Args;
use std::io;

/// A program, as its help shows it.
#[derive(Clone, Copy)]
pub struct Program<'n> {
    pub name: &'static str,
    pub version: &'static str,
    /// What it does.
    pub about: &'static str,
    /// What its help says behind the arguments.
    pub notes: &'n str,
}

impl<'n> Program<'n> {
    /// Returns the command of the program, without arguments. It has `-h`, `--help`, `-V` and
    /// `--version`.
    pub fn command(&self, alloc: Global) -> Command<'n>
        ensures { app_of result ≡ program_app self.now.name.now }
    {
        Command::new(alloc, self.name)
            .version(self.version)
            .about(self.about)
            .after_help(self.notes)
    }
}

/// Returns the argument that names a file.
pub fn file_argument<'a>(alloc: Global, name: &'a str, help: &'a str) -> Arg<'a>
    ensures rule { rule_of result ≡ file_rule name.entry.now }
    ensures local { result.global ≡ false }
{
    Arg::new(alloc, name).required(true).help(help)
}

/// The name of the argument of definitions.
pub const DEFINITIONS: &str = "NAME=VALUE";

/// The name of the option `-m`.
pub const MACROS: &str = "macros";

/// Returns the argument of definitions of macros, which are any number of words.
pub fn definitions_argument<'a>(alloc: Global) -> Arg<'a>
    ensures rule { rule_of result ≡ definitions_rule }
    ensures local { result.global ≡ false }
{
    Arg::new(alloc, DEFINITIONS)
        .num_args(0..)
        .action(ArgAction::Append)
        .help("the macro NAME has this value; several have commas between them")
}

/// Returns the option `-m`, which takes definitions of macros too.
pub fn macros_option<'a>(alloc: Global) -> Arg<'a>
    ensures rule { rule_of result ≡ macros_rule }
    ensures local { result.global ≡ false }
{
    Arg::new(alloc, MACROS)
        .short('m')
        .value_name(DEFINITIONS)
        .action(ArgAction::Append)
        .help("defines macros too, before the words do")
}

// Returns all words.
fn collected(alloc: Global, words: Args) -> Result<Vec<String>, AllocError>
    ensures { IfOk result (λ all. all.items ≡ into_iter_items words) }
{
    let mut words = words;
    let mut all = Vec::new(alloc);
    while let Some(word) = words.next() {
        if all.push(word).is_err() {
            return Err(AllocError);
        }
    }
    Ok(all)
}

/// Returns the words of a command line, the program's name first.
///
/// # Errors
///
/// [`Stop::Usage`] if one of them isn't UTF-8. [`Stop::Memory`] if allocation fails.
pub fn given(alloc: Global, words: io::Result<Args>) -> Result<Vec<String>, Stop>
    ensures ok { IfOk result (λ all. IfOk words (λ w. all.items ≡ into_iter_items w)) }
    ensures err { IfErr result (WasNotGiven words) }
{
    match words {
        Ok(words) => Ok(collected(alloc, words)?),
        Err(e) if is_out_of_memory(&e) => Err(Stop::Memory(Stage::Loading)),
        Err(_) => Err(Stop::Usage(UsageFault::NotText)),
    }
}

// Returns why the program stops if its words gave no matches.
fn stop_of(alloc: Global, error: &Error) -> Stop
    ensures { Tells (kind_of error.now) result }
{
    let Ok(text) = error.to_string(alloc) else {
        return Stop::Memory(Stage::Loading);
    };
    match error.kind() {
        ErrorKind::DisplayHelp | ErrorKind::DisplayVersion => Stop::Shown(text),
        ErrorKind::OutOfMemory => Stop::Memory(Stage::Loading),
        _ => Stop::Refused(text),
    }
}

/// Returns what the words of a command line say, by the arguments of a command.
///
/// # Errors
///
/// [`Stop::Shown`] if they ask for help or for the version. [`Stop::Refused`] if they aren't the
/// words that the command takes. [`Stop::Memory`] if allocation fails.
pub fn parse<'a>(
    alloc: Global,
    command: Command<'a>,
    words: &'a [String],
) -> Result<ArgMatches<'a>, Stop>
    ensures ok { IfOk result (HasMatchesOf (app_of command.entry) (map string_bytes words.entry.now)) }
    ensures err { IfErr result (RefusesWords (app_of command.entry) (map string_bytes words.entry.now)) }
{
    match command.try_get_matches_from(words) {
        Ok(matches) => Ok(matches),
        Err(error) => Err(stop_of(alloc, &error)),
    }
}
