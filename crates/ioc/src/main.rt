//! `ioc DB --live --workers W [NAME=VALUE]..` loads a database text with these macros, scans its
//! records by a clock and answers lines of standard input while other threads serve the requests that
//! wait, and prints a line for each record at its end. With `--console` lines say when records are
//! scanned, and with `--ticks N` they are scanned so often without waiting. With `-d`, `-I` or `--adapt`
//! the database is that of a site's files.
#![tactic(auto)]

use ioc_app::{
    Console, Header, JournalFile, Outputs, Plant, PlantDevices, RunFault, Saving, Sizes, Ticks,
    database_hash, ioc_run,
};
use ioc_arguments::{Args, Devices, Mode, PROGRAM, ioc_args};
use ioc_command_line::{FileRole, Reason, Stage, Stop, bad_database, given, read_whole, show};
use ioc_dblex::Macros;
use ioc_devices::{Asks, counting_devices};
use ioc_engine::{Database, Device, LoadError, SystemClock, load};
use ioc_files::{
    CreateFiles, FileSeries, ReplaceFiles, Requested, Restored, path_of, saved_values,
};
use ioc_listing::file_name;
use ioc_saved::SavedValue;
use ioc_site_database::{SiteFault, SiteText, SiteWords, ended, site_text};
use ioc_values::Short;
use std::alloc::{Alloc, Global};
use std::env;
use std::fs::{File, Files, OpenFile};
use std::io::{self, ErrorKind, IsTerminal, Print, Read, Write};
use std::process::ExitCode;
use std::sync::Wait;
use std::thread::Threads;
use std::time::{Clock, Duration};

// What a console reads from, and where it writes the numbers of lines.
#[derive(Drop)]
struct Terminal<I: Read + Drop, E: Write + Drop> {
    input: I,
    errors: E,
    has_prompt: bool,
}

// How many names are tried for a file of a folder.
const NAMES: u64 = 1_000;

// A database, the hash of its text and macros, and the values that were restored into it.
#[derive(Drop)]
struct HashedDatabase {
    database: Database,
    hash: [u8; 32],
    restored: Vec<SavedValue>,
}

// A database text, the macros that are replaced in it, and their definitions, each behind a byte 0.
#[derive(Drop)]
struct Source<'a> {
    text: Vec<u8>,
    macros: &'a Macros,
    definitions: &'a [u8],
}

// Loads a database text with these macros.
fn load_text<R: Alloc<A = Global>>(
    rt: &R,
    args: &Args<'_>,
    macros: &Macros,
    text: &[u8],
) -> Result<Database, Stop> {
    match load(rt.alloc(), text, macros) {
        Ok(database) => Ok(database),
        Err(LoadError::BadDb(fault)) => Err(bad_database(rt.alloc(), args.database, fault)),
        Err(LoadError::NoMemory) => Err(Stop::Memory(Stage::Loading)),
    }
}

// Writes lines of text, each with the program's name, where a user sees them. If they can't be
// written, nothing else changes.
fn tell<E: Write>(alloc: Global, errors: &mut E, lines: &[u8]) -> Result<(), Stop> {
    let mut text = Vec::new(alloc);
    for line in lines.split_inclusive(|byte| *byte == b'\n') {
        text.extend_from_slice(b"ioc: ")?;
        text.extend_from_slice(line)?;
    }
    let _written = errors.write_all(&text);
    Ok(())
}

// Restores the values of a saved file: loads the database text with the values behind it.
fn restored<R: Files + Alloc<A = Global>, E: Write>(
    rt: &R,
    args: &Args<'_>,
    path: &str,
    source: Source<'_>,
    loaded: HashedDatabase,
    errors: &mut E,
) -> Result<HashedDatabase, Stop> {
    let Source {
        mut text,
        macros,
        ..
    } = source;
    let mut told = Vec::new(rt.alloc());
    let values = saved_values(rt, path, &mut told)?;
    let Restored {
        values,
        blocks,
        told: left_out,
    } = Restored::of(rt.alloc(), &loaded.database, &values)?;
    told.extend_from_slice(&left_out)?;
    tell(rt.alloc(), errors, &told)?;
    text.extend_from_slice(b"\n")?;
    text.extend_from_slice(&blocks)?;
    Ok(HashedDatabase {
        database: load_text(rt, args, macros, &text)?,
        hash: loaded.hash,
        restored: values,
    })
}

// Loads the database text, and restores saved values if that is asked for.
fn loaded<R: Files + Alloc<A = Global>, E: Write>(
    rt: &R,
    args: &Args<'_>,
    source: Source<'_>,
    errors: &mut E,
) -> Result<HashedDatabase, Stop> {
    let loaded = HashedDatabase {
        database: load_text(rt, args, source.macros, &source.text)?,
        hash: database_hash(&source.text, source.definitions),
        restored: Vec::new(rt.alloc()),
    };
    match args.restore {
        Some(path) => restored(rt, args, path, source, loaded, errors),
        None => Ok(loaded),
    }
}

// Returns what is saved, if anything is.
fn saving_of<R: Files + Alloc<A = Global>, E: Write>(
    rt: &R,
    args: &Args<'_>,
    database: &Database,
    errors: &mut E,
) -> Result<Option<Saving>, Stop> {
    let Some(save) = args.save else {
        return Ok(None);
    };
    let Requested { fields, told } = Requested::of(rt, database, &args.macros, save.request)?;
    tell(rt.alloc(), errors, &told)?;
    let every = Duration::from_secs(save.seconds);
    Ok(Some(Saving::new(rt.alloc(), save.file, fields, every)?))
}

// The new file of a journal.
#[derive(Drop)]
struct NewFile<F: Drop> {
    path: String,
    file: F,
}

// Creates the file of a journal. A file that is there already is written over only if that is asked
// for.
fn new_file<R: Files + Alloc<A = Global>>(
    rt: &R,
    path: &str,
    overwrites: bool,
) -> Result<NewFile<R::File>, Stop> {
    let created = if overwrites {
        File::create(rt, path)
    } else {
        File::create_new(rt, path)
    };
    match created {
        Ok(file) => Ok(NewFile {
            path: String::from_str(rt.alloc(), path)?,
            file,
        }),
        Err(error) if error.kind() == ErrorKind::AlreadyExists => Err(exists(rt.alloc(), path)),
        Err(error) => Err(unwritable(rt.alloc(), FileRole::Journal, path, Reason::of(&error))),
    }
}

// Creates the file of a journal in a folder, whose path ends with `/`. Its name is the moment, or the
// next one whose name is free.
fn new_file_in<R: Files + Alloc<A = Global>>(
    rt: &R,
    folder: &str,
    now: u64,
) -> Result<NewFile<R::File>, Stop> {
    for moment in now..now.saturating_add(NAMES) {
        let name = file_name(rt.alloc(), moment)?;
        let path = format!(in rt.alloc(); "{folder}{name}")?;
        match new_file(rt, path.as_str(), false) {
            Err(Stop::Exists(_)) => {}
            created => return created,
        }
    }
    Err(exists(rt.alloc(), folder))
}

// Returns the file of a journal, unless the journal is to go on in a second one that is there already.
fn alone<R: Files + Alloc<A = Global>>(
    rt: &R,
    args: &Args<'_>,
    path: &str,
) -> Result<NewFile<R::File>, Stop> {
    if args.journal_size.is_some() && !args.overwrites {
        let second = path_of(rt.alloc(), path, 2)?;
        if File::open(rt, second.as_str()).is_ok() {
            return Err(exists(rt.alloc(), second.as_str()));
        }
    }
    new_file(rt, path, args.overwrites)
}

// Creates the file of the journal, if it is kept.
fn journal_of<R: Files + Alloc<A = Global>>(
    rt: &R,
    args: &Args<'_>,
    now: u64,
) -> Result<Option<NewFile<R::File>>, Stop> {
    match args.journal {
        None => Ok(None),
        Some(path) if path.ends_with('/') => Ok(Some(new_file_in(rt, path, now)?)),
        Some(path) => Ok(Some(alone(rt, args, path)?)),
    }
}

// Returns the first line of a journal.
fn header_of(args: &Args<'_>, hash: [u8; 32]) -> Header {
    Header {
        program: Short::cut(PROGRAM.version.as_bytes()),
        database: hash,
        has_own_devices: matches!(args.devices, Devices::Outside),
        is_sealed: args.seals,
        first: 0,
    }
}

// Returns when a journal whose first file has this path goes on in another one, if it does.
fn sizes_of(args: &Args<'_>, path: &str) -> Option<Sizes> {
    let most = args.journal_size?;
    let name = match path.rsplit_once('/') {
        Some((_folder, name)) => name,
        None => path,
    };
    Some(Sizes {
        most,
        name: Short::cut(name.as_bytes()),
    })
}

// Brings the last bytes of the files of a journal to the disk, of which the first one has this path.
fn sync<R: Files + Alloc<A = Global>>(rt: &R, args: &Args<'_>, path: &str) -> Result<(), Stop> {
    if !args.syncs {
        return Ok(());
    }
    let mut name = String::from_str(rt.alloc(), path)?;
    for number in 2..u64::MAX {
        let Ok(file) = File::open(rt, name.as_str()) else {
            break;
        };
        if let Err(error) = file.sync_all() {
            return Err(unwritable(rt.alloc(), FileRole::Journal, path, Reason::of(&error)));
        }
        if args.journal_size.is_none() {
            break;
        }
        name = path_of(rt.alloc(), path, number)?;
    }
    Ok(())
}

// Returns why the program stops if the journal's file is there already.
fn exists(alloc: Global, path: &str) -> Stop {
    match String::from_str(alloc, path) {
        Ok(path) => Stop::Exists(path),
        Err(_) => Stop::Memory(Stage::Loading),
    }
}

// Returns why the program stops if a file can't be written.
fn unwritable(alloc: Global, role: FileRole, path: &str, reason: Reason) -> Stop {
    match String::from_str(alloc, path) {
        Ok(path) => Stop::Unwritable(role, path, reason),
        Err(_) => Stop::Memory(Stage::Run),
    }
}

// Returns why the program stops if the lines of a console can't be read.
fn unreadable(alloc: Global, reason: Reason) -> Stop {
    match String::from_str(alloc, "-") {
        Ok(path) => Stop::Unreadable(FileRole::Script, path, reason),
        Err(_) => Stop::Memory(Stage::Run),
    }
}

// Returns why the program stops if its run has ended early.
fn stop_of(alloc: Global, args: &Args<'_>, fault: RunFault, journal: &str) -> Stop {
    match fault {
        RunFault::Read(reason) => unreadable(alloc, reason),
        RunFault::Write(reason) => Stop::Write(reason),
        RunFault::Journal(reason) => unwritable(alloc, FileRole::Journal, journal, reason),
        RunFault::Save(reason) => match args.save {
            Some(save) => unwritable(alloc, FileRole::Saved, save.file, reason),
            None => Stop::Write(reason),
        },
        RunFault::Start => Stop::Memory(Stage::Loading),
        RunFault::Memory => Stop::Memory(Stage::Run),
    }
}

// Creates the console of a terminal.
fn console_of<I: Read + Drop, E: Write + Drop>(
    alloc: Global,
    database: &Database,
    terminal: Terminal<I, E>,
) -> Result<Console<I, E>, Stop> {
    let Terminal {
        input,
        errors,
        has_prompt,
    } = terminal;
    Ok(Console::new(alloc, database, input, errors, has_prompt)?)
}

// Does the task of a mode.
fn do_task<
    R: ReplaceFiles + Clock + Threads + Wait + Sync,
    D: Device + Send + Sync,
    I: Read + Drop,
    E: Write + Drop,
    W: Write + Drop + Send,
    J: Write + Drop + Send,
>(
    rt: &R,
    alloc: Global,
    plant: Plant<D, SystemClock<&R>>,
    mode: Mode,
    mut console: Console<I, E>,
    outputs: Outputs<'_, W, J>,
) -> Result<(), RunFault> {
    match mode {
        Mode::Ticks(count) => ioc_run(rt, alloc, plant, &mut Ticks(count), outputs),
        Mode::Console => ioc_run(rt, alloc, plant, &mut console, outputs),
        Mode::Live => ioc_run(rt, alloc, plant, &mut console.with_clock(), outputs),
    }
}

// Runs a database with these devices, and writes its journal if it is kept.
fn run_with<
    'a,
    F: Write + OpenFile + Drop + Send,
    R: Alloc<A = Global>
        + Clock
        + Files<File = F>
        + CreateFiles<F>
        + ReplaceFiles
        + Print
        + Threads
        + Wait
        + Sync,
    D: Device + Send + Sync,
    I: Read + Drop,
    E: Write + Drop,
>(
    rt: &R,
    args: &Args<'_>,
    loaded: HashedDatabase,
    devices: PlantDevices<D>,
    asks: &'a Asks,
    saving: Option<&'a Saving>,
    terminal: Terminal<I, E>,
) -> Result<(), Stop> {
    let alloc = rt.alloc();
    let HashedDatabase {
        database,
        hash,
        restored,
    } = loaded;
    let console = console_of(alloc, &database, terminal)?;
    let plant = Plant {
        devices,
        database,
        clock: SystemClock::new(rt),
        workers: args.workers,
    };
    let created = journal_of(rt, args, ioc_engine::Clock::now(&plant.clock))?;
    let Some(created) = created else {
        let outputs = Outputs {
            lines: io::writer(rt),
            journal: None::<JournalFile<FileSeries<'_, F, R>>>,
            asks,
            saving,
        };
        let done = do_task(rt, alloc, plant, args.mode, console, outputs);
        return ran(alloc, args, done, "");
    };
    let NewFile { path, file } = created;
    let series = String::from_str(alloc, path.as_str())?;
    let journal = JournalFile {
        file: FileSeries::new(rt, alloc, series, file, args.overwrites, args.syncs),
        header: header_of(args, hash),
        restored,
        sizes: sizes_of(args, path.as_str()),
    };
    let outputs = Outputs {
        lines: io::writer(rt),
        journal: Some(journal),
        asks,
        saving,
    };
    let done = do_task(rt, alloc, plant, args.mode, console, outputs);
    let synced = sync(rt, args, path.as_str());
    ran(alloc, args, done, path.as_str())?;
    synced
}

// Returns what comes of a run whose journal has this path.
fn ran(
    alloc: Global,
    args: &Args<'_>,
    done: Result<(), RunFault>,
    journal: &str,
) -> Result<(), Stop> {
    match done {
        Ok(()) => Ok(()),
        Err(fault) => Err(stop_of(alloc, args, fault, journal)),
    }
}

// Runs what the words of the command line ask for on a database text.
fn work<
    F: Write + OpenFile + Drop + Send,
    R: Alloc<A = Global>
        + Clock
        + Files<File = F>
        + CreateFiles<F>
        + ReplaceFiles
        + Print
        + Threads
        + Wait
        + Sync,
    I: Read + Drop,
    E: Write + Drop,
>(rt: &R, args: &Args<'_>, source: Source<'_>, terminal: Terminal<I, E>) -> Result<(), Stop> {
    let alloc = rt.alloc();
    let mut terminal = terminal;
    let loaded = loaded(rt, args, source, &mut terminal.errors)?;
    let saving = saving_of(rt, args, &loaded.database, &mut terminal.errors)?;
    let saving = saving.as_ref();
    match args.devices {
        Devices::Counting => {
            let devices = PlantDevices::Named(counting_devices(alloc, &loaded.database)?);
            let asks = Asks::none(alloc)?;
            run_with(rt, args, loaded, devices, &asks, saving, terminal)
        }
        Devices::Outside => {
            let asks = Asks::new(alloc, &loaded.database)?;
            let devices = PlantDevices::Own(asks.devices(rt, alloc)?);
            run_with(rt, args, loaded, devices, &asks, saving, terminal)
        }
    }
}

// Runs what the words of a command line ask for that names one database text.
fn run_text<
    F: Write + OpenFile + Drop + Send,
    R: Alloc<A = Global>
        + Clock
        + Files<File = F>
        + CreateFiles<F>
        + ReplaceFiles
        + Print
        + Threads
        + Wait
        + Sync,
    I: Read + Drop,
    E: Write + Drop,
>(rt: &R, words: &[String], terminal: Terminal<I, E>) -> Result<(), Stop> {
    let args = ioc_args(rt.alloc(), words)?;
    let source = Source {
        text: read_whole(rt, FileRole::Database, args.database)?,
        macros: &args.macros,
        definitions: args.definitions.as_slice(),
    };
    work(rt, &args, source, terminal)
}

// Runs what the words of a command line ask for that names a site's files.
fn run_site<
    F: Write + OpenFile + Drop + Send,
    R: Alloc<A = Global>
        + Clock
        + Files<File = F>
        + CreateFiles<F>
        + ReplaceFiles
        + Print
        + Threads
        + Wait
        + Sync,
    I: Read + Drop,
    E: Write + Drop,
>(rt: &R, site: &SiteWords<'_>, terminal: Terminal<I, E>) -> Result<(), SiteFault> {
    let alloc = rt.alloc();
    let mut terminal = terminal;
    let left = site.left(PROGRAM.name)?;
    let args = ioc_args(alloc, left.as_slice())?;
    let definitions = site.behind_options(&args.definitions);
    let SiteText { text, told } = site_text(rt, site, args.database, definitions)?;
    let _written = terminal.errors.write_all(told.as_bytes());
    let macros = Macros::new(alloc);
    let source = Source {
        text,
        macros: &macros,
        definitions: &[],
    };
    Ok(work(rt, &args, source, terminal)?)
}

// Does what the words of the command line ask for.
fn run<
    F: Write + OpenFile + Drop + Send,
    R: Alloc<A = Global>
        + Clock
        + Files<File = F>
        + CreateFiles<F>
        + ReplaceFiles
        + Print
        + Threads
        + Wait
        + Sync,
    I: Read + Drop,
    E: Write + Drop,
>(rt: &R, words: io::Result<env::Args>, terminal: Terminal<I, E>) -> Result<(), SiteFault> {
    let words = given(rt.alloc(), words)?;
    match SiteWords::from_words(rt.alloc(), words.as_slice())? {
        Some(site) => run_site(rt, &site, terminal),
        None => Ok(run_text(rt, words.as_slice(), terminal)?),
    }
}

fn main(rt: HostRuntime) -> ExitCode {
    let terminal = Terminal {
        input: rt.stdin(),
        errors: rt.stderr(),
        has_prompt: rt.stdin().is_terminal(),
    };
    show(
        &rt,
        &ended(PROGRAM.name, run(&rt, env::args(&rt), terminal)),
    )
}
