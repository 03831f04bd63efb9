//! The words of a command line that name a site's files.
ghost use Rattle.std.specs.Prelude.{◌≡◌, ◌<◌, ◌++◌, ◌∷◌, [], false, length, map, option_map, None, Ok, OnOk, IfOk, if◌then◌else◌};
ghost use Rattle.std.specs.String.{string_bytes};
ghost use Rattle.ioc_dblex.specs.Macros.{behind_first};
ghost use Rattle.ioc_site_lines.specs.Defining.{definitions_of, seen};
ghost use Rattle.ioc_site_database.specs.SiteFiles.{words_defined, zero_parts, macros_in, holding};
ghost use Rattle.ioc_site_database.specs.SiteWords.{is_option, is_site_word, names_site};

use ioc_command_line::{Stop, UsageFault};
use ioc_dblex::split_at_byte;
use ioc_site_reader::{Definition, parse_definitions};
use std::alloc::{AllocError, Global};
use std::mem;

/// What the help of a program says of these words.
pub const HELP: &str = "\
A site's files, in place of DB:
  -d FILE            reads FILE, a database or a substitution file, with what it includes; several
                     files are one database
  -m NAME=VALUE,..   before -d FILE: these macros hold in the files behind it
  -I DIR             looks for included files and templates in DIR too
  --adapt            drops or replaces what EPICS has and is left out here, and tells it
";

/// What the next word is the value of.
#[derive(Clone, Copy, PartialEq, Eq, Debug)]
enum Wanted {
    File,
    Folder,
    Macros,
}

/// A file of `-d`, and the words of `-m` that hold in it.
#[derive(Drop)]
struct NamedFile<'a> {
    path: &'a str,
    macros: Vec<&'a str>,
}

/// What a command line says of a site's files, and the words that are left.
#[derive(Drop)]
pub struct SiteWords<'a> {
    alloc: Global,
    files: Vec<NamedFile<'a>>,
    /// All words of `-m`.
    macros: Vec<&'a str>,
    /// Those that hold in the next file.
    held: Vec<&'a str>,
    /// Whether they hold in the last file.
    is_used: bool,
    folders: Vec<&'a str>,
    is_adapted: bool,
    /// Words that are no options, behind the program's name.
    plain: Vec<&'a str>,
    left: Vec<&'a str>,
    wanted: Option<Wanted>,
    is_behind_options: bool,
}

// Returns whether a word begins with -d or with -I.
#[tactic(auto, unfolding(crate::specs::SiteWords::is_option))]
fn is_option(word: &[u8]) -> bool
    ensures { result ≡ is_option word.now }
{
    match word {
        [first, second, ..] => *first == b'-' && (*second == b'd' || *second == b'I'),
        _ => false,
    }
}

// Returns whether a word is one of a site's files.
fn is_site_word(word: &[u8]) -> bool
    ensures { result ≡ is_site_word word.now }
{
    is_option(word) || word == b"--adapt".as_slice()
}

/// Returns whether the words of a command line name a site's files: whether there is `-d`, `-I` or
/// `--adapt`.
pub fn names_site(words: &[String]) -> bool
    ensures { result ≡ names_site (map string_bytes words.now) }
{
    let mut rest = words;
    while let [word, after @ ..] = rest {
        let bytes = word.as_bytes();
        if bytes == b"--".as_slice() {
            return false;
        }
        if is_site_word(bytes) {
            return true;
        }
        rest = after;
    }
    false
}

// Returns what an option wants, and the value that stands in the same word.
fn option_of(word: &str) -> Option<(Wanted, &str)> {
    if let Some(value) = word.strip_prefix("-d") {
        return Some((Wanted::File, value));
    }
    if let Some(value) = word.strip_prefix("-I") {
        return Some((Wanted::Folder, value));
    }
    let value = word.strip_prefix("-m")?;
    Some((Wanted::Macros, value))
}

// Returns why the program stops if its words are wrong.
fn refused(alloc: Global, why: &str) -> Stop {
    match format!(in alloc; "error: {why}\n\nFor more information, try '--help'.\n") {
        Ok(text) => Stop::Refused(text),
        Err(_) => Stop::from(AllocError),
    }
}

// Adds the definitions of a text.
fn add_definitions(alloc: Global, text: &[u8], all: &mut Vec<Definition>) -> Result<(), Stop>
    ensures { OnOk result (map seen all.new.items ≡ map seen all.old.items ++ definitions_of text.now) }
{
    let mut defined = parse_definitions(alloc, text)?;
    if defined.fault.is_some() {
        let word = String::from_utf8_lossy(alloc, text)?;
        return Err(Stop::Usage(UsageFault::NoDefinition(word)));
    }
    all.append(&mut defined.list).map_err(AllocError::from)?;
    Ok(())
}

// Adds the definitions of words.
fn add_words(alloc: Global, words: &[&str], all: &mut Vec<Definition>) -> Result<(), Stop>
    ensures { OnOk result (map seen all.new.items ≡ map seen all.old.items ++ words_defined (map (λ w. w.now) words.now)) }
{
    let mut rest = words;
    while let [word, after @ ..] = rest {
        add_definitions(alloc, word.as_bytes(), all)?;
        rest = after;
    }
    Ok(())
}

// Returns the bytes behind the first one, if there is one.
fn behind_first(bytes: &[u8]) -> Option<&[u8]>
    ensures { option_map (λ r. r.now) result ≡ behind_first bytes.now }
{
    match bytes {
        [] => None,
        [_, after @ ..] => Some(after),
    }
}

// Adds the definitions of the words between the bytes 0 of a text.
fn add_each(alloc: Global, text: &[u8], all: &mut Vec<Definition>) -> Result<(), Stop>
    ensures { OnOk result (map seen all.new.items ≡ map seen all.old.items ++ words_defined (zero_parts text.now)) }
{
    let mut rest = Some(text);
    while let Some(left) = rest {
        let (word, behind) = split_at_byte(0, left);
        add_definitions(alloc, word, all)?;
        rest = behind_first(behind);
    }
    Ok(())
}

// Returns the macros of these words of `-m`, and of definitions, each behind a byte 0.
fn macros_of(alloc: Global, words: &[&str], behind: &[u8]) -> Result<Vec<Definition>, Stop>
    ensures { IfOk result (λ ds. map seen ds.items ≡ macros_in (map (λ w. w.now) words.now) behind.now) }
{
    let mut all = Vec::new(alloc);
    add_words(alloc, words, &mut all)?;
    add_each(alloc, behind, &mut all)?;
    Ok(all)
}

// Adds a file, in which the macros of these words of `-m` hold, and those of definitions.
fn add_file<'a>(
    alloc: Global,
    path: &'a str,
    words: &[&str],
    definitions: &[u8],
    all: &mut Vec<(&'a str, Vec<Definition>)>,
) -> Result<(), Stop>
    ensures { OnOk result (map (λ p. (p.0.now, map seen p.1.items)) all.new.items
        ≡ map (λ p. (p.0.now, map seen p.1.items)) all.old.items ++ holding definitions.now path.now (map (λ w. w.now) words.now) ∷ []) }
{
    let macros = macros_of(alloc, words, definitions)?;
    all.push((path, macros)).map_err(AllocError::from)?;
    Ok(())
}

impl<'a> SiteWords<'a> {
    // Begins with no words.
    fn new(alloc: Global) -> Self {
        SiteWords {
            alloc,
            files: Vec::new(alloc),
            macros: Vec::new(alloc),
            held: Vec::new(alloc),
            is_used: false,
            folders: Vec::new(alloc),
            is_adapted: false,
            plain: Vec::new(alloc),
            left: Vec::new(alloc),
            wanted: None,
            is_behind_options: false,
        }
    }

    // Takes a file of `-d`, in which the words of `-m` hold that hold now.
    fn give_file(&mut self, path: &'a str) -> Result<(), AllocError>
        ensures path { OnOk result (map (λ f. f.path.now) self.new.files.items ≡ map (λ f. f.path.now) self.old.files.items
            ++ path.now ∷ []) }
        ensures macros { OnOk result (map (λ f. map (λ w. w.now) f.macros.items) self.new.files.items
            ≡ map (λ f. map (λ w. w.now) f.macros.items) self.old.files.items ++ map (λ w. w.now) self.old.held.items ∷ []) }
        ensures held { OnOk result (self.new.held.items ≡ self.old.held.items) }
    {
        let macros = self.held.as_slice().to_vec(self.alloc)?;
        self.files.push(NamedFile { path, macros })?;
        self.is_used = true;
        Ok(())
    }

    // Takes a word of `-m`. It holds in the files behind it beside the words before it, but for those that stand
    // before a file.
    fn give_macros(&mut self, word: &'a str) -> Result<(), AllocError>
        ensures held { OnOk result (map (λ w. w.now) self.new.held.items
            ≡ map (λ w. w.now) (if self.old.is_used then [] else self.old.held.items) ++ word.now ∷ []) }
        ensures files { OnOk result (self.new.files.items ≡ self.old.files.items) }
    {
        if self.is_used {
            self.held.clear();
            self.is_used = false;
        }
        self.held.push(word)?;
        self.macros.push(word)?;
        self.left.push("-m")?;
        self.left.push(word)?;
        Ok(())
    }

    // Takes the value of an option.
    fn give(&mut self, wanted: Wanted, value: &'a str) -> Result<(), AllocError> {
        match wanted {
            Wanted::File => self.give_file(value),
            Wanted::Folder => Ok(self.folders.push(value)?),
            Wanted::Macros => self.give_macros(value),
        }
    }

    // Says that an option lacks its value.
    fn lacking(&self, wanted: Wanted) -> Stop {
        match wanted {
            Wanted::File => refused(self.alloc, "-d wants a file"),
            Wanted::Folder => refused(self.alloc, "-I wants a folder"),
            Wanted::Macros => refused(self.alloc, "-m wants NAME=VALUE"),
        }
    }

    // Takes a word that is no value.
    fn take_word(&mut self, word: &'a str) -> Result<(), AllocError> {
        if word == "--" {
            self.is_behind_options = true;
            return Ok(self.left.push(word)?);
        }
        if word == "--adapt" {
            self.is_adapted = true;
            return Ok(());
        }
        let Some((wanted, value)) = option_of(word) else {
            if !word.starts_with("-") {
                self.plain.push(word)?;
            }
            return Ok(self.left.push(word)?);
        };
        let value = value.strip_prefix("=").unwrap_or(value);
        if value.is_empty() {
            self.wanted = Some(wanted);
            return Ok(());
        }
        self.give(wanted, value)
    }

    // Takes the next word.
    fn take(&mut self, word: &'a str) -> Result<(), Stop> {
        if self.is_behind_options {
            self.plain.push(word).map_err(AllocError::from)?;
            self.left.push(word).map_err(AllocError::from)?;
            return Ok(());
        }
        match mem::replace(&mut self.wanted, None) {
            None => Ok(self.take_word(word)?),
            Some(wanted) if word.starts_with("-") => Err(self.lacking(wanted)),
            Some(wanted) => Ok(self.give(wanted, word)?),
        }
    }

    // Ends the words.
    fn finish(&self) -> Result<(), Stop> {
        if let Some(wanted) = self.wanted {
            return Err(self.lacking(wanted));
        }
        if !self.files.is_empty() && !self.is_used {
            return Err(refused(self.alloc, "-m stands before the -d for which it holds"));
        }
        Ok(())
    }

    /// Reads the words of a command line: the program's name, and any others. Returns what they say of a
    /// site's files, if they do.
    ///
    /// # Errors
    ///
    /// [`Stop::Refused`] if a file or a folder is missing. [`Stop::Memory`] if allocation fails.
    pub fn from_words(alloc: Global, words: &'a [String]) -> Result<Option<SiteWords<'a>>, Stop>
        ensures plain { names_site (map string_bytes words.entry.now) ≡ false → result ≡ Ok None }
    {
        if !names_site(words) {
            return Ok(None);
        }
        Ok(Some(SiteWords::of(alloc, words)?))
    }

    /// Reads the words of a command line as [`SiteWords::from_words`] does, also if they say nothing of a
    /// site's files.
    ///
    /// # Errors
    ///
    /// [`Stop::Refused`] if a file or a folder is missing. [`Stop::Memory`] if allocation fails.
    pub fn of(alloc: Global, words: &'a [String]) -> Result<SiteWords<'a>, Stop> {
        let mut said = SiteWords::new(alloc);
        for word in words.get(1..).unwrap_or(&[]) {
            said.take(word.as_str())?;
        }
        said.finish()?;
        Ok(said)
    }

    /// Returns the words that are left, behind the program's name: the first file of `-d` stands for the
    /// database text.
    ///
    /// # Errors
    ///
    /// [`AllocError`] if allocation fails.
    pub fn left(&self, program: &str) -> Result<Vec<String>, AllocError> {
        let mut all = Vec::new(self.alloc);
        all.push(String::from_str(self.alloc, program)?)?;
        if let Some(file) = self.files.first() {
            all.push(String::from_str(self.alloc, file.path)?)?;
        }
        for word in &self.left {
            all.push(String::from_str(self.alloc, *word)?)?;
        }
        Ok(all)
    }

    /// Returns the words behind so many that name the files of a program, each behind a byte 0.
    ///
    /// # Errors
    ///
    /// [`AllocError`] if allocation fails.
    pub fn words_behind(&self, count: usize) -> Result<Vec<u8>, AllocError> {
        let mut all = Vec::new(self.alloc);
        let named = if self.files.is_empty() { 0 } else { 1 };
        for word in self.plain.get(count.saturating_sub(named)..).unwrap_or(&[]) {
            all.push(0)?;
            all.extend_from_slice(word.as_bytes())?;
        }
        Ok(all)
    }

    /// Returns the part of definitions of macros, each behind a byte 0, that stands behind those of `-m`.
    pub fn behind_options<'d>(&self, definitions: &'d [u8]) -> &'d [u8] {
        let mut count = 0usize;
        for word in &self.macros {
            count = count.saturating_add(word.len()).saturating_add(1);
        }
        definitions.get(count..).unwrap_or(&[])
    }

    /// Returns whether there is a file of `-d`.
    pub fn names_files(&self) -> bool {
        !self.files.is_empty()
    }

    /// Returns whether what this project leaves out is dropped or replaced.
    pub fn is_adapted(&self) -> bool {
        self.is_adapted
    }

    /// Returns the folders in which included files are looked for.
    pub fn folders(&self) -> &[&'a str] {
        self.folders.as_slice()
    }

    // Returns the files of `-d` with the macros that hold in each.
    fn named(&self, definitions: &[u8]) -> Result<Vec<(&'a str, Vec<Definition>)>, Stop>
        ensures { IfOk result (λ all. map (λ p. (p.0.now, map seen p.1.items)) all.items
            ≡ map (λ f. holding definitions.now f.path.now (map (λ w. w.now) f.macros.items)) self.now.files.items) }
    {
        let mut all = Vec::new(self.alloc);
        let mut rest = self.files.as_slice();
        while let [file, after @ ..] = rest {
            let (path, words) = (file.path, file.macros.as_slice());
            add_file(self.alloc, path, words, definitions, &mut all)?;
            rest = after;
        }
        Ok(all)
    }

    // Returns databases with the macros of all words of `-m` in each.
    fn unnamed(
        &self,
        databases: &[&'a str],
        definitions: &[u8],
    ) -> Result<Vec<(&'a str, Vec<Definition>)>, Stop>
        ensures { IfOk result (λ all. map (λ p. (p.0.now, map seen p.1.items)) all.items
            ≡ map (λ d. holding definitions.now d.now (map (λ w. w.now) self.now.macros.items)) databases.now) }
    {
        let mut all = Vec::new(self.alloc);
        let mut rest = databases;
        while let [database, after @ ..] = rest {
            let (path, words) = (*database, self.macros.as_slice());
            add_file(self.alloc, path, words, definitions, &mut all)?;
            rest = after;
        }
        Ok(all)
    }

    /// Returns the files that are read, with the macros that hold in each: those of `-d`, or the databases
    /// that are named without it. The definitions stand each behind a byte 0.
    ///
    /// # Errors
    ///
    /// [`UsageFault::NoDefinition`] if a word defines no macro. [`Stop::Memory`] if allocation fails.
    pub fn files(
        &self,
        databases: &[&'a str],
        definitions: &[u8],
    ) -> Result<Vec<(&'a str, Vec<Definition>)>, Stop>
        ensures named { 0 < length self.now.files.items → IfOk result (λ all. map (λ p. (p.0.now, map seen p.1.items)) all.items
            ≡ map (λ f. holding definitions.now f.path.now (map (λ w. w.now) f.macros.items)) self.now.files.items) }
        ensures unnamed { length self.now.files.items ≡ 0 → IfOk result (λ all. map (λ p. (p.0.now, map seen p.1.items)) all.items
            ≡ map (λ d. holding definitions.now d.now (map (λ w. w.now) self.now.macros.items)) databases.now) }
    {
        if self.files.is_empty() {
            self.unnamed(databases, definitions)
        } else {
            self.named(definitions)
        }
    }
}
