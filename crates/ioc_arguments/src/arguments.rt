//! The command line of the program `ioc`.
ghost use Rattle.std.specs.Prelude.{◌≡◌, ◌≤◌, ℕ, Some, true, false, map, codes, option_map, IfOk, OnOk};
ghost use Rattle.std.specs.String.{string_bytes};
ghost use Rattle.clap.specs.Words.{app_of, first_of, found_of, rows_of, rule_of};
ghost use Rattle.ioc_arguments.specs.Arguments.{IsNumber, IsOptionalNumber, IsMode, IsSave, IsSeconds, IsAskedBy, IsAskedByWords};
ghost use Rattle.ioc_arguments.specs.Arguments.{devices_named, ioc_words, number_rule, usual_devices, with_lines, word_rule};
ghost use Rattle.ioc_arguments.specs.declared.arguments.Mode.TheVariants.{Live, Ticks};

use clap::builder::ValueParser;
use clap::{Arg, ArgMatches, Command};
use ioc_command_line::{
    Program, Stage, Stop, UsageFault, definitions_argument, definitions_in, file_argument, flag,
    is_given, macros_in, macros_option, parse,
};
use ioc_dblex::Macros;
use std::alloc::{AllocError, Global};

/// The program, as its help shows it.
pub const PROGRAM: Program<'static> = Program {
    name: "ioc",
    version: "0.1.0",
    about: "Loads the database text DB, in which the macros NAME stand for VALUE. It answers the \
        lines of standard input with --live, beside a clock that scans the records, and with \
        --console, whose lines say when they are scanned; with --ticks it scans them so often, \
        without waiting. Worker threads serve the requests that wait. At its end it prints a line \
        for each record and the counts of requests.",
    notes: "\
The line of a record: its name, VAL, STAT, SEVR, and its time stamp.

The line help of a console prints its lines. Standard error has the number of each line that is \
    refused, unless standard input is a terminal.

A device link @TEXT has a device that counts its reads: the first gives 1, the next 2. With \
    --live, and with --devices outside, a line ? tells what it is asked, and a line done or fault \
    answers.

With -d FILE, -m before it, -I DIR and --adapt the database is that of a site's files in place of DB, as with \
    ioc-replay.

The exit status: 0 the run is done, 1 the database is refused, 2 the command line is wrong, \
    3 a file cannot be read or written, 4 memory ran out",
};

/// The largest number of ticks.
pub const MAX_TICKS: u64 = 1_000_000;

/// The largest number of worker threads.
pub const MAX_WORKERS: u64 = 64;

/// The largest number of seconds between two saves.
pub const MAX_SAVE_SECONDS: u64 = 86_400;

/// The number of seconds between two saves if the command line doesn't say it.
pub const SAVE_SECONDS: u64 = 30;
/// The largest size of a journal's file, in bytes.
pub const MAX_JOURNAL_SIZE: u64 = 1_000_000_000_000;

// The names of the arguments.
const DATABASE: &str = "DB";

const TICKS: &str = "ticks";

const WORKERS: &str = "workers";

const CONSOLE: &str = "console";

const LIVE: &str = "live";

const DEVICES: &str = "devices";

const JOURNAL: &str = "journal";

const JOURNAL_SIZE: &str = "journal-size";

const OVERWRITE: &str = "overwrite";

const SEAL: &str = "seal";

const SYNC: &str = "sync";

const SAVE: &str = "save";

const SAVE_TO: &str = "save-to";

const SAVE_EVERY: &str = "save-every";

const RESTORE: &str = "restore";

// What is wrong with a command line.
const NO_MODE: &str = "one of --live, --console and --ticks N is wanted";

const TWO_MODES: &str = "--live, --console and --ticks exclude each other";

const NO_WORKERS: &str = "--workers N is wanted: how many threads serve the requests that wait";

const NO_SAVE: &str = "--save FILE.req and --save-to FILE are wanted together, with --live";

const NO_SECONDS: &str = "--save-every wants a number of seconds, with --save";

const NO_DEVICES: &str = "--devices wants counting, or with --live or --console outside";

/// What the program does with the records.
#[derive(Clone, Copy, Debug, PartialEq, Eq)]
pub enum Mode {
    /// Walks the periods of so many ticks, from 1 to [`MAX_TICKS`].
    Ticks(u64),
    /// Answers the lines of standard input.
    Console,
    /// Answers them beside a clock, which walks the periods.
    Live,
}

/// Which devices the records have.
#[derive(Clone, Copy, Debug, PartialEq, Eq)]
pub enum Devices {
    /// Those of the program, which count their reads.
    Counting,
    /// Others, which lines tell what they are asked, and for which lines answer.
    Outside,
}

/// What the words of a command line ask for.
///
/// ```rust
/// let words = given(rt.alloc(), env::args(&rt))?;
/// let args = ioc_args(rt.alloc(), words.as_slice())?;
/// ```
#[derive(Drop)]
pub struct Args<'a> {
    /// The path of the database text.
    pub database: &'a str,
    pub macros: Macros,
    pub mode: Mode,
    pub devices: Devices,
    /// From 1 to [`MAX_WORKERS`].
    pub workers: u64,
    /// The path of the file to which the journal is written, or of the folder, with `/` at its end, in
    /// which it is a new file.
    pub journal: Option<&'a str>,
    /// How many bytes the entries of a file of the journal have before it goes on in another one, from 1
    /// to [`MAX_JOURNAL_SIZE`], if it does.
    pub journal_size: Option<u64>,
    /// Whether a file that is there already may be written over.
    pub overwrites: bool,
    /// Whether the journal has seals.
    pub seals: bool,
    /// Whether what is written to the journal is to reach the disk within a second.
    pub syncs: bool,
    /// What is saved.
    pub save: Option<SaveArgs<'a>>,
    /// The path of the file whose values are restored.
    pub restore: Option<&'a str>,
    /// The definitions of macros, each behind a byte 0.
    pub definitions: Vec<u8>,
}

/// What is saved while a live run goes on.
#[derive(Clone, Copy, Debug)]
pub struct SaveArgs<'a> {
    /// The path of the request file, which names the channels.
    pub request: &'a str,
    /// The path of the file of their values.
    pub file: &'a str,
    /// The number of seconds from one save to the next, from 1 to [`MAX_SAVE_SECONDS`].
    pub seconds: u64,
}

// Returns the option of a number from 1 to `most`.
fn number_option<'a>(alloc: Global, name: &'a str, most: u64, help: &'a str) -> Arg<'a>
    ensures rule { rule_of result ≡ number_rule name.entry.now most }
    ensures local { result.global ≡ false }
{
    Arg::new(alloc, name)
        .long(name)
        .value_name("N")
        .value_parser(ValueParser::unsigned(1, most))
        .help(help)
}

// Returns the option of the ticks.
fn ticks_option<'a>(alloc: Global) -> Arg<'a>
    ensures rule { rule_of result ≡ number_rule (codes "ticks") 1000000 }
    ensures local { result.global ≡ false }
{
    number_option(
        alloc,
        TICKS,
        MAX_TICKS,
        "scans the records for so many ticks",
    )
}

// Returns the option of the workers.
fn workers_option<'a>(alloc: Global) -> Arg<'a>
    ensures rule { rule_of result ≡ number_rule (codes "workers") 64 }
    ensures local { result.global ≡ false }
{
    let help = "how many threads serve the requests that wait";
    number_option(alloc, WORKERS, MAX_WORKERS, help)
}

// Returns the option of the seconds between two saves.
fn save_every_option<'a>(alloc: Global) -> Arg<'a>
    ensures rule { rule_of result ≡ number_rule (codes "save-every") 86400 }
    ensures local { result.global ≡ false }
{
    let help = "how many seconds pass from one save to the next; 30 without it";
    number_option(alloc, SAVE_EVERY, MAX_SAVE_SECONDS, help)
}

// Returns the option of the size of a journal's files.
fn size_option<'a>(alloc: Global) -> Arg<'a>
    ensures rule { rule_of result ≡ number_rule (codes "journal-size") 1000000000000 }
    ensures local { result.global ≡ false }
{
    let help =
        "the journal goes on in FILE.2, FILE.3 and so on, each with so many bytes of entries";
    number_option(alloc, JOURNAL_SIZE, MAX_JOURNAL_SIZE, help)
}

// Returns an option with a word, of which help shows this name.
fn word_option<'a>(alloc: Global, name: &'a str, shown: &'a str, help: &'a str) -> Arg<'a>
    ensures rule { rule_of result ≡ word_rule name.entry.now }
    ensures local { result.global ≡ false }
{
    Arg::new(alloc, name)
        .long(name)
        .value_name(shown)
        .help(help)
}

// Returns the command of the program.
#[tactic(auto, unfolding(crate::specs::Arguments::ioc_words))]
fn command<'a>(alloc: Global) -> Result<Command<'a>, AllocError>
    ensures { IfOk result (λ c. app_of c ≡ ioc_words) }
{
    PROGRAM
        .command(alloc)
        .arg(file_argument(alloc, DATABASE, "the database text"))?
        .arg(ticks_option(alloc))?
        .arg(flag(
            alloc,
            CONSOLE,
            "answers the lines of standard input, in place of ticks",
        ))?
        .arg(flag(
            alloc,
            LIVE,
            "answers them beside a clock, which scans the records",
        ))?
        .arg(word_option(
            alloc,
            DEVICES,
            "KIND",
            "counting or outside: which devices the records have",
        ))?
        .arg(workers_option(alloc))?
        .arg(word_option(
            alloc,
            JOURNAL,
            "FILE",
            "the journal is written to this new file, or to a new one in this folder if it ends with /",
        ))?
        .arg(size_option(alloc))?
        .arg(flag(alloc, OVERWRITE, "the journal's file may be there already"))?
        .arg(flag(
            alloc,
            SEAL,
            "the journal has seals, which ioc-audit compares",
        ))?
        .arg(flag(alloc, SYNC, "the journal is on the disk within a second"))?
        .arg(word_option(
            alloc,
            SAVE,
            "FILE.req",
            "saves the channels that this request file names, with --live",
        ))?
        .arg(word_option(alloc, SAVE_TO, "FILE", "saves them to this file"))?
        .arg(save_every_option(alloc))?
        .arg(word_option(
            alloc,
            RESTORE,
            "FILE",
            "restores the values of this file, if there is one",
        ))?
        .arg(definitions_argument(alloc))?
        .arg(macros_option(alloc))
}

// Returns why the program stops if its words are wrong.
fn refused(alloc: Global, why: &str) -> Stop {
    match format!(in alloc; "error: {why}\n\nFor more information, try '--help'.\n") {
        Ok(text) => Stop::Refused(text),
        Err(_) => Stop::Memory(Stage::Loading),
    }
}

// Returns the number of an option, which lies between 1 and `most`. If it isn't given, the program
// stops for this reason.
fn number_in(
    alloc: Global,
    matches: &ArgMatches<'_>,
    id: &str,
    most: u64,
    missing: &str,
) -> Result<u64, Stop>
    ensures { IfOk result (IsNumber (rows_of (found_of matches.now)) id.now most) }
{
    let Some(text) = matches.get_str(id) else {
        return Err(refused(alloc, missing));
    };
    match text.parse::<u64>() {
        Ok(number) if 1 <= number && number <= most => Ok(number),
        _ => Err(Stop::Usage(UsageFault::NoArgument)),
    }
}

// Returns the number of an option that may be missing.
fn optional_number_in(
    alloc: Global,
    matches: &ArgMatches<'_>,
    id: &str,
    most: u64,
) -> Result<Option<u64>, Stop>
    ensures { IfOk result (IsOptionalNumber (rows_of (found_of matches.now)) id.now most) }
{
    match matches.get_str(id) {
        None => Ok(None),
        Some(_) => Ok(Some(number_in(alloc, matches, id, most, id)?)),
    }
}

// Returns what the program does with the records.
fn mode_in(alloc: Global, matches: &ArgMatches<'_>) -> Result<Mode, Stop>
    ensures { IfOk result (IsMode (rows_of (found_of matches.now))) }
{
    let has_console = is_given(matches, CONSOLE);
    let is_live = is_given(matches, LIVE);
    match (matches.get_str(TICKS), has_console, is_live) {
        (None, true, false) => Ok(Mode::Console),
        (None, false, true) => Ok(Mode::Live),
        (Some(_), false, false) => Ok(Mode::Ticks(number_in(
            alloc, matches, TICKS, MAX_TICKS, NO_MODE,
        )?)),
        (None, false, false) => Err(refused(alloc, NO_MODE)),
        _ => Err(refused(alloc, TWO_MODES)),
    }
}

// Returns which devices records have if the command line doesn't say it.
fn usual_devices(mode: Mode) -> Devices
    ensures { result ≡ usual_devices mode }
{
    match mode {
        Mode::Live => Devices::Outside,
        Mode::Ticks(_) | Mode::Console => Devices::Counting,
    }
}

// Returns the devices outside, if there are lines that answer for them.
fn with_lines(mode: Mode) -> Option<Devices>
    ensures { result ≡ with_lines mode }
{
    match mode {
        Mode::Live | Mode::Console => Some(Devices::Outside),
        Mode::Ticks(_) => None,
    }
}

// Returns the devices that a word names, which may be missing.
fn devices_named(mode: Mode, word: Option<&str>) -> Option<Devices>
    ensures { result ≡ devices_named mode (option_map (λ s. s.now) word.entry) }
{
    let Some(word) = word else {
        return Some(usual_devices(mode));
    };
    if word.as_bytes() == b"counting".as_slice() {
        Some(Devices::Counting)
    } else if word.as_bytes() == b"outside".as_slice() {
        with_lines(mode)
    } else {
        None
    }
}

// Returns which devices the records have.
fn devices_in(alloc: Global, matches: &ArgMatches<'_>, mode: Mode) -> Result<Devices, Stop>
    ensures { IfOk result (λ devices. devices_named mode (first_of (codes "devices") (rows_of (found_of matches.now))) ≡ Some devices) }
{
    match devices_named(mode, matches.get_str(DEVICES)) {
        Some(devices) => Ok(devices),
        None => Err(refused(alloc, NO_DEVICES)),
    }
}

// Returns the seconds between two saves.
fn seconds_in(alloc: Global, matches: &ArgMatches<'_>) -> Result<u64, Stop>
    ensures { IfOk result (IsSeconds (rows_of (found_of matches.now))) }
{
    match matches.get_str(SAVE_EVERY) {
        None => Ok(SAVE_SECONDS),
        Some(_) => number_in(alloc, matches, SAVE_EVERY, MAX_SAVE_SECONDS, NO_SECONDS),
    }
}

// Only a live run saves values.
fn must_be_live(alloc: Global, mode: Mode) -> Result<(), Stop>
    ensures { OnOk result (mode ≡ Live) }
{
    match mode {
        Mode::Live => Ok(()),
        Mode::Console | Mode::Ticks(_) => Err(refused(alloc, NO_SAVE)),
    }
}

// Returns what is saved.
fn save_in<'a>(
    alloc: Global,
    matches: &ArgMatches<'a>,
    mode: Mode,
) -> Result<Option<SaveArgs<'a>>, Stop>
    ensures { IfOk result (IsSave (rows_of (found_of matches.now)) mode) }
{
    let request = matches.get_str(SAVE);
    let file = matches.get_str(SAVE_TO);
    let every = matches.get_str(SAVE_EVERY);
    match (request, file, every) {
        (None, None, None) => Ok(None),
        (None, None, Some(_)) => Err(refused(alloc, NO_SECONDS)),
        (Some(request), Some(file), _) => {
            must_be_live(alloc, mode)?;
            let seconds = seconds_in(alloc, matches)?;
            Ok(Some(SaveArgs {
                request,
                file,
                seconds,
            }))
        }
        _ => Err(refused(alloc, NO_SAVE)),
    }
}

// Returns what the matches ask for.
fn read<'a>(alloc: Global, matches: &ArgMatches<'a>) -> Result<Args<'a>, Stop>
    ensures { IfOk result (IsAskedBy (rows_of (found_of matches.now))) }
{
    let Some(database) = matches.get_str(DATABASE) else {
        return Err(Stop::Usage(UsageFault::NoArgument));
    };
    let mode = mode_in(alloc, matches)?;
    let devices = devices_in(alloc, matches, mode)?;
    let workers = number_in(alloc, matches, WORKERS, MAX_WORKERS, NO_WORKERS)?;
    let save = save_in(alloc, matches, mode)?;
    let journal_size = optional_number_in(alloc, matches, JOURNAL_SIZE, MAX_JOURNAL_SIZE)?;
    let macros = macros_in(alloc, matches)?;
    let definitions = definitions_in(alloc, matches)?;
    Ok(Args {
        database,
        macros,
        mode,
        devices,
        workers,
        journal: matches.get_str(JOURNAL),
        journal_size,
        overwrites: is_given(matches, OVERWRITE),
        seals: is_given(matches, SEAL),
        syncs: is_given(matches, SYNC),
        save,
        restore: matches.get_str(RESTORE),
        definitions,
    })
}

/// Reads the words of a command line, of which the first is the program's name: DB, one of `--ticks N`,
/// `--console` and `--live`, `--devices KIND`, `--workers W`, `--journal FILE`, `--journal-size BYTES`,
/// `--overwrite`, `--seal`, `--sync`, `--save FILE.req` with `--save-to FILE` and `--save-every S`,
/// `--restore FILE`, and definitions of macros, as `NAME=VALUE`, `P=a,R=b`, or with
/// `-m` before them.
///
/// # Errors
///
/// [`Stop::Shown`] if the words ask for help or for the version. [`Stop::Refused`] and
/// [`Stop::Usage`] if they are wrong. [`Stop::Memory`] if allocation fails.
pub fn ioc_args<'a>(alloc: Global, words: &'a [String]) -> Result<Args<'a>, Stop>
    ensures ticks { IfOk result (λ a. (n : ℕ) → a.mode ≡ Ticks n → (1 ≤ n) × (n ≤ 1_000_000)) }
    ensures workers { IfOk result (λ a. (1 ≤ a.workers) × (a.workers ≤ 64)) }
    ensures asked { IfOk result (IsAskedByWords (map string_bytes words.entry.now)) }
{
    let matches = parse(alloc, command(alloc)?, words)?;
    read(alloc, &matches)
}
