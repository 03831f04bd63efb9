//! Command lines that name two files, and macros.
ghost use Rattle.std.specs.Prelude.{◌≡◌, [], Some, OnOk, IfOk, IfErr, map};
ghost use Rattle.std.specs.String.{string_bytes};
ghost use Rattle.clap.specs.Words.{app_of, found_of, rows_of};
ghost use Rattle.ioc_command_line.specs.Definitions.{all_defined, Undefined};
ghost use Rattle.ioc_command_line.specs.CommandLine.{two_files_app, definitions_in, values_in};
ghost use Rattle.ioc_command_line.specs.Files.{Reads, ReadsWords, RowsRefused, WordsRefused};

use crate::command_line::{
    DEFINITIONS, MACROS, Program, definitions_argument, file_argument, macros_option, parse,
};
use crate::definitions::{add_definitions, defined};
use crate::ending::{Stop, UsageFault};
use clap::{ArgMatches, Command};
use ioc_dblex::Macros;
use std::alloc::{AllocError, Global};

// The name of the argument of the database text.
const DATABASE: &str = "DB";

/// The files of a command line `DB OTHER [NAME=VALUE]..`, and the macros of the database text.
#[derive(Drop)]
pub struct TwoFiles<'a> {
    /// The path of the database text.
    pub database: &'a str,
    /// The path of the other file.
    pub other: &'a str,
    pub macros: Macros,
}

// Returns the command of a program that takes a database text, another file and macros.
#[tactic(auto, unfolding(crate::specs::CommandLine::two_files_app))]
fn command<'a>(
    alloc: Global,
    program: &Program<'a>,
    other: &'a str,
    help: &'a str,
) -> Result<Command<'a>, AllocError>
    ensures { IfOk result (λ c. app_of c ≡ two_files_app program.now.name.now other.entry.now) }
{
    program
        .command(alloc)
        .arg(file_argument(alloc, DATABASE, "the database text"))?
        .arg(file_argument(alloc, other, help))?
        .arg(definitions_argument(alloc))?
        .arg(macros_option(alloc))
}

// Defines the macros of the values of an argument.
fn define_values(
    alloc: Global,
    matches: &ArgMatches<'_>,
    id: &str,
    macros: &mut Macros,
) -> Result<(), Stop>
    ensures ok { OnOk result (all_defined macros.old (values_in id.now (rows_of (found_of matches.now))) ≡ Some macros.new) }
    ensures err { IfErr result (Undefined (all_defined macros.old (values_in id.now (rows_of (found_of matches.now))))) }
{
    match matches.get_strs(id) {
        Some(words) => defined(alloc, words, macros),
        None => Ok(()),
    }
}

/// Returns the macros that the words of a command line define, those of `-m` first.
///
/// # Errors
///
/// [`UsageFault::NoDefinition`] if a word defines no macro. [`Stop::Memory`] if allocation fails.
#[tactic(auto, using(crate::proofs::Cutting::defined_both, crate::proofs::Cutting::none_of_both))]
pub fn macros_in(alloc: Global, matches: &ArgMatches<'_>) -> Result<Macros, Stop>
    ensures ok { IfOk result (λ m. all_defined [] (definitions_in (rows_of (found_of matches.now))) ≡ Some m) }
    ensures err { IfErr result (Undefined (all_defined [] (definitions_in (rows_of (found_of matches.now))))) }
{
    let mut macros = Macros::new(alloc);
    define_values(alloc, matches, MACROS, &mut macros)?;
    define_values(alloc, matches, DEFINITIONS, &mut macros)?;
    Ok(macros)
}

// Appends the definitions in the values of an argument.
fn add_values(out: &mut Vec<u8>, matches: &ArgMatches<'_>, id: &str) -> Result<(), AllocError> {
    for word in matches.get_strs(id).unwrap_or(&[]) {
        add_definitions(out, word.as_bytes())?;
    }
    Ok(())
}

/// Returns the definitions of macros that the words of a command line have, in the order in which
/// [`macros_in`] takes them, each as `NAME=VALUE` behind a byte 0.
///
/// # Errors
///
/// [`AllocError`] if allocation fails.
pub fn definitions_in(alloc: Global, matches: &ArgMatches<'_>) -> Result<Vec<u8>, AllocError> {
    let mut out = Vec::new(alloc);
    add_values(&mut out, matches, MACROS)?;
    add_values(&mut out, matches, DEFINITIONS)?;
    Ok(out)
}

// Returns the files and macros of the matches.
fn read<'a>(alloc: Global, matches: &ArgMatches<'a>, other: &str) -> Result<TwoFiles<'a>, Stop>
    ensures ok { IfOk result (Reads (rows_of (found_of matches.now)) other.now) }
    ensures err { IfErr result (RowsRefused (rows_of (found_of matches.now)) other.now) }
{
    let Some(database) = matches.get_str(DATABASE) else {
        return Err(Stop::Usage(UsageFault::NoArgument));
    };
    let Some(other) = matches.get_str(other) else {
        return Err(Stop::Usage(UsageFault::NoArgument));
    };
    let macros = macros_in(alloc, matches)?;
    Ok(TwoFiles {
        database,
        other,
        macros,
    })
}

impl<'a> TwoFiles<'a> {
    /// Parses the words of a command line: the program's name, DB, the file with this name, and
    /// definitions of macros. Those of `-m` come before the others; the last of a name stands.
    ///
    /// # Errors
    ///
    /// [`Stop::Shown`] if the words ask for help or for the version. [`Stop::Refused`] and
    /// [`Stop::Usage`] if they are wrong. [`Stop::Memory`] if allocation fails.
    #[tactic(auto, using(crate::proofs::Matching::refuses_words, crate::proofs::Matching::memory_refuses))]
    pub fn from_words(
        alloc: Global,
        program: &Program<'a>,
        other: &'a str,
        help: &'a str,
        words: &'a [String],
    ) -> Result<TwoFiles<'a>, Stop>
        ensures ok { IfOk result (ReadsWords (two_files_app program.now.name.now other.entry.now) other.entry.now
            (map string_bytes words.entry.now)) }
        ensures err { IfErr result (WordsRefused (two_files_app program.now.name.now other.entry.now) other.entry.now
            (map string_bytes words.entry.now)) }
    {
        let matches = parse(alloc, command(alloc, program, other, help)?, words)?;
        read(alloc, &matches, other)
    }
}
