//! The command line of the program.
use clap::{Arg, ArgAction, ArgMatches, Command};
use ioc_command_line::{Program, Stop, UsageFault, defined, parse};
use ioc_dblex::{Macros, split_at_byte};
use ioc_site_database::LeftOutTypes;
use ioc_site_reader::{Definition, parse_definitions};
use std::alloc::{AllocError, Global};

/// The program, without the notes of its help.
pub const PROGRAM: Program<'static> = Program {
    name: "ioc-check",
    version: "0.1.0",
    about: "Reads the database files DB, in which the macros NAME stand for VALUE, \
        and reports every mistake in them and what in them is worth a look.",
    notes: "",
};

/// What the help says behind the arguments and the words of a site's files.
pub const NOTES: &str = "\
A word with = defines macros. One DB is read as the other programs load it. Several are read as files of -d \
    are, and so is one whose name ends in .substitutions, .subs or .sub. There is no error exactly if \
    they load by the same words.

Findings are printed as FILE:LINE:COLUMN: error: TEXT or warning: TEXT, to standard output, or to standard \
    error beside --sets and --dot, and how many there are to standard error.

With --calc no DB is read: EXPRESSION is run on the inputs that words as A=6 and VAL=1 give.

With --write fields that EPICS has and this project leaves out are dropped with a warning, and OUT \
    is written only if there is no error.

The exit status: 0 there is no error, 1 there is one, 2 the command line is wrong, 3 what is found \
    or OUT cannot be written, 4 memory ran out";

// The names of arguments.
const FILES: &str = "DB";

const MACROS: &str = "macros";

const SETS: &str = "sets";

const DOT: &str = "dot";

const WRITE: &str = "write";

const DROP_TYPES: &str = "drop-types";

const CALC: &str = "calc";

/// What a command line asks for, but for the words of a site's files.
#[derive(Drop)]
pub struct Words<'a> {
    /// The paths of the database files, if there is no `-d`.
    pub paths: Vec<&'a str>,
    // The words of `-m`.
    macros: Vec<&'a str>,
    // The words that define macros without it.
    definitions: Vec<&'a str>,
    /// Whether the lock sets are printed.
    pub sets: bool,
    /// Whether a picture is printed.
    pub dot: bool,
    /// The path of the file to which all records are written as one text.
    pub output: Option<&'a str>,
    pub left_out_types: LeftOutTypes,
    /// The expression that is tried on numbers, in place of all else.
    pub expression: Option<&'a str>,
}

/// Returns whether the words of a command line ask for an expression, which may begin as an option does.
pub fn names_expression(words: &[String]) -> bool {
    words.iter().any(|word| word.as_str() == "--calc" || word.as_str().starts_with("--calc="))
}

// Returns the command of the program, without what a run shows and writes.
fn command<'a>(alloc: Global, program: &Program<'a>) -> Result<Command<'a>, AllocError> {
    program
        .command(alloc)
        .arg(
            Arg::new(alloc, FILES)
                .num_args(1..)
                .required_unless_present(CALC)?
                .action(ArgAction::Append)
                .help("the database files, and definitions NAME=VALUE of macros"),
        )?
        .arg(
            Arg::new(alloc, MACROS)
                .short('m')
                .value_name("NAME=VALUE")
                .action(ArgAction::Append)
                .help("defines macros too, before the words do; several have commas between them"),
        )
}

// Adds what a run shows and writes to its command.
fn with_outputs<'a>(alloc: Global, command: Command<'a>) -> Result<Command<'a>, AllocError> {
    command
        .arg(
            Arg::new(alloc, SETS)
                .long(SETS)
                .action(ArgAction::SetTrue)
                .help("prints the lock sets, the largest first"),
        )?
        .arg(
            Arg::new(alloc, DOT)
                .long(DOT)
                .action(ArgAction::SetTrue)
                .help("prints a picture of the records and links, for Graphviz"),
        )?
        .arg(
            Arg::new(alloc, WRITE).long(WRITE).value_name("OUT").help(
                "writes all records to the file OUT, as one text that loads without macros",
            ),
        )?
        .arg(
            Arg::new(alloc, DROP_TYPES)
                .long(DROP_TYPES)
                .action(ArgAction::SetTrue)
                .requires_arg(WRITE)?
                .help("drops records of types that are left out here or unknown, with a warning"),
        )?
        .arg(
            Arg::new(alloc, CALC)
                .long(CALC)
                .value_name("EXPRESSION")
                .allow_hyphen_values(true)
                .help(
                    "prints what the expression of a calc record gives, with A to L from words as A=6",
                ),
        )
}

// Returns why the program stops if a word defines no macro.
fn no_definition(alloc: Global, word: &str) -> Stop {
    match String::from_str(alloc, word) {
        Ok(text) => Stop::Usage(UsageFault::NoDefinition(text)),
        Err(e) => Stop::from(e),
    }
}

impl<'a> Words<'a> {
    // Adds what the words of the command line say. With `-d` the first word stands for its first file, and
    // the others define macros.
    fn add(
        &mut self,
        alloc: Global,
        matches: &ArgMatches<'a>,
        names_files: bool,
    ) -> Result<(), Stop> {
        for word in matches.get_strs(MACROS).unwrap_or(&[]) {
            self.macros.push(*word).map_err(AllocError::from)?;
        }
        let words = matches.get_strs(FILES).unwrap_or(&[]);
        for word in words.get(usize::from(names_files)..).unwrap_or(&[]) {
            let word = *word;
            if word.contains('=') {
                self.definitions.push(word).map_err(AllocError::from)?;
            } else if names_files || self.expression.is_some() {
                return Err(no_definition(alloc, word));
            } else {
                self.paths.push(word).map_err(AllocError::from)?;
            }
        }
        Ok(())
    }

    /// Parses the words of a command line: the program's name, files, definitions of macros and
    /// options. If `names_files` holds, the first file stands for those of `-d`.
    ///
    /// # Errors
    ///
    /// [`Stop::Shown`] if the words ask for help or for the version. [`Stop::Refused`] and
    /// [`Stop::Usage`] if they are wrong. [`Stop::Memory`] if allocation fails.
    pub fn from_words(
        alloc: Global,
        program: &Program<'a>,
        words: &'a [String],
        names_files: bool,
    ) -> Result<Words<'a>, Stop> {
        let command = with_outputs(alloc, command(alloc, program)?)?;
        let matches = parse(alloc, command, words)?;
        let mut said = Words {
            paths: Vec::new(alloc),
            macros: Vec::new(alloc),
            definitions: Vec::new(alloc),
            sets: matches.get_flag(SETS),
            dot: matches.get_flag(DOT),
            output: matches.get_str(WRITE),
            left_out_types: if matches.get_flag(DROP_TYPES) {
                LeftOutTypes::Drop
            } else {
                LeftOutTypes::Keep
            },
            expression: matches.get_str(CALC),
        };
        said.add(alloc, &matches, names_files)?;
        if said.expression.is_none() && !names_files && said.paths.is_empty() {
            return Err(Stop::Usage(UsageFault::NoArgument));
        }
        Ok(said)
    }

    /// Returns the macros as the load of one text takes them.
    ///
    /// # Errors
    ///
    /// [`UsageFault::NoDefinition`] if a word defines no macro. [`Stop::Memory`] if allocation fails.
    pub fn macros(&self, alloc: Global) -> Result<Macros, Stop> {
        let mut macros = Macros::new(alloc);
        defined(alloc, self.macros.as_slice(), &mut macros)?;
        defined(alloc, self.definitions.as_slice(), &mut macros)?;
        Ok(macros)
    }

    /// Returns the definitions of these macros, which the words define, for a reader of files.
    ///
    /// # Errors
    ///
    /// [`AllocError`] if allocation fails.
    pub fn literals(&self, alloc: Global, macros: &Macros) -> Result<Vec<Definition>, AllocError> {
        let mut all = Vec::new(alloc);
        for word in self.macros.iter().chain(self.definitions.iter()) {
            for piece in word.as_bytes().split(|byte| *byte == b',') {
                let (name, _) = split_at_byte(b'=', piece);
                if let Some(value) = macros.value_of(name) {
                    all.push(Definition::literal(alloc, name, value)?)?;
                }
            }
        }
        Ok(all)
    }

    /// Returns the words that define macros, but for those of `-m`, each behind a byte 0.
    ///
    /// # Errors
    ///
    /// [`AllocError`] if allocation fails.
    pub fn definitions(&self, alloc: Global) -> Result<Vec<u8>, AllocError> {
        let mut all = Vec::new(alloc);
        for word in &self.definitions {
            all.push(0)?;
            all.extend_from_slice(word.as_bytes())?;
        }
        Ok(all)
    }

    /// Returns what all words define, as the inputs of an expression.
    ///
    /// # Errors
    ///
    /// [`UsageFault::NoDefinition`] if a word defines nothing. [`Stop::Memory`] if allocation fails.
    pub fn inputs(&self, alloc: Global) -> Result<Vec<Definition>, Stop> {
        let mut all = Vec::new(alloc);
        for word in self.macros.iter().chain(self.definitions.iter()) {
            let mut parsed = parse_definitions(alloc, word.as_bytes())?;
            if parsed.fault.is_some() {
                return Err(no_definition(alloc, *word));
            }
            all.append(&mut parsed.list).map_err(AllocError::from)?;
        }
        Ok(all)
    }
}
