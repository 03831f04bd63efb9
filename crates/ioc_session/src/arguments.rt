//! The command line of `ioc-replay`.
ghost use Rattle.std.specs.Prelude.{◌≡◌, map, IfOk};
ghost use Rattle.std.specs.String.{string_bytes};
ghost use Rattle.clap.specs.Words.{app_of, found_of, rows_of};
ghost use Rattle.ioc_session.specs.Arguments.{IsAskedBy, IsAskedByWords, words_of};

use clap::{ArgMatches, Command};
use ioc_command_line::{
    Program, Stop, TwoFiles, UsageFault, definitions_argument, file_argument, flag, is_given,
    macros_in, macros_option, parse,
};
use std::alloc::{AllocError, Global};

// The names of arguments.
const DATABASE: &str = "DB";

const SCRIPT: &str = "SCRIPT";

const TEST: &str = "test";

const ECHO: &str = "echo";

const EXPLAIN: &str = "explain";

const TRACE: &str = "trace";

/// What is told beside the replies.
#[derive(Clone, Copy)]
pub struct Manner {
    /// Replies are compared with what the script expects.
    pub is_tested: bool,
    /// Each line is printed with its number.
    pub has_echo: bool,
    /// It is explained why a line is bad or refused.
    pub is_explained: bool,
    /// What each line makes records do is printed before its replies.
    pub is_traced: bool,
    /// A user at a terminal is prompted for each line.
    pub has_prompt: bool,
}

/// What a command line asks for.
#[derive(Drop)]
pub struct Arguments<'a> {
    /// The database text, the script and the macros.
    pub files: TwoFiles<'a>,
    pub manner: Manner,
}

impl Manner {
    /// Returns whether nothing is told beside the replies.
    pub fn is_plain(&self) -> bool {
        !self.is_tested && !self.tells_more()
    }

    // Returns whether more is told than a comparison of replies with what is expected.
    fn tells_more(&self) -> bool {
        self.has_echo || self.is_explained || self.is_traced || self.has_prompt
    }

    /// Returns whether replies are compared with what is expected, and no more is told.
    pub fn is_test_alone(&self) -> bool {
        self.is_tested && !self.tells_more()
    }

    /// Returns this manner at a terminal: a user is prompted, replies are compared with what is
    /// expected, and it is explained why a line is refused.
    pub fn at_terminal(self) -> Self {
        Manner {
            is_tested: true,
            is_explained: true,
            has_prompt: true,
            ..self
        }
    }
}

// Returns the command of the program.
fn command<'a>(alloc: Global, program: &Program<'a>) -> Result<Command<'a>, AllocError>
    ensures { IfOk result (λ c. app_of c ≡ words_of program.now.name.now) }
{
    let script = "the script; where it is - it is standard input";
    let explain = "says on standard error why a line is bad or refused";
    program
        .command(alloc)
        .arg(file_argument(alloc, DATABASE, "the database text"))?
        .arg(file_argument(alloc, SCRIPT, script))?
        .arg(definitions_argument(alloc))?
        .arg(macros_option(alloc))?
        .arg(flag(alloc, TEST, "compares replies with the lines expect TEXT"))?
        .arg(flag(
            alloc,
            ECHO,
            "prints each line with its number before its replies",
        ))?
        .arg(flag(alloc, EXPLAIN, explain))?
        .arg(flag(
            alloc,
            TRACE,
            "prints what each line makes records do before its replies",
        ))
}

// Returns what the matches ask for.
fn read<'a>(alloc: Global, matches: &ArgMatches<'a>) -> Result<Arguments<'a>, Stop>
    ensures { IfOk result (IsAskedBy (rows_of (found_of matches.now))) }
{
    let Some(database) = matches.get_str(DATABASE) else {
        return Err(Stop::Usage(UsageFault::NoArgument));
    };
    let Some(other) = matches.get_str(SCRIPT) else {
        return Err(Stop::Usage(UsageFault::NoArgument));
    };
    let macros = macros_in(alloc, matches)?;
    Ok(Arguments {
        files: TwoFiles {
            database,
            other,
            macros,
        },
        manner: Manner {
            is_tested: is_given(matches, TEST),
            has_echo: is_given(matches, ECHO),
            is_explained: is_given(matches, EXPLAIN),
            is_traced: is_given(matches, TRACE),
            has_prompt: false,
        },
    })
}

impl<'a> Arguments<'a> {
    /// Parses the words of a command line: the program's name, DB, SCRIPT, definitions of macros,
    /// and flags.
    ///
    /// # Errors
    ///
    /// [`Stop::Shown`] if the words ask for help or for the version. [`Stop::Refused`] and
    /// [`Stop::Usage`] if they are wrong. [`Stop::Memory`] if allocation fails.
    pub fn from_words(
        alloc: Global,
        program: &Program<'a>,
        words: &'a [String],
    ) -> Result<Arguments<'a>, Stop>
        ensures { IfOk result (IsAskedByWords program.now.name.now (map string_bytes words.entry.now)) }
    {
        let matches = parse(alloc, command(alloc, program)?, words)?;
        read(alloc, &matches)
    }
}
