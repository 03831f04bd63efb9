//! Reads files with the files that they include.
use crate::entries::{Body, Opening, read_entries};
use crate::files::{Files, ReadFile};
use crate::first_words::{FirstWord, first_loaded, first_word, wrong_file};
use crate::sources::Sources;
use crate::statements::{alias_statement, next_heading, record_head, skipped_statement};
use crate::substitutions::{Group, is_substitution_file, read_groups};
use crate::words::Words;
use ioc_site::{Place, Reading, RecordText, SourceText, Statement, Word};
use ioc_site_lines::{Definition, Keyword};
use std::alloc::{AllocError, Global};

/// How many files may be open within one another.
const MOST_OPEN: usize = 32;

/// What is to be read.
#[derive(Clone, Copy)]
pub struct Request<'a> {
    /// The paths of the files, in this order. One that ends in `.substitutions`, `.subs` or `.sub`
    /// is a substitution file.
    pub paths: &'a [&'a [u8]],
    /// The macros that hold in all files.
    pub macros: &'a [Definition],
    /// The folders in which a file is sought that isn't beside the one that names it.
    pub folders: &'a [&'a [u8]],
    /// Whether the file is loaded alone.
    pub is_alone: bool,
}

/// Reads files.
#[derive(Drop)]
struct Reader {
    alloc: Global,
    files: Files,
    words: Words,
    statements: Vec<Statement>,
    texts: Vec<SourceText>,
    first_loss: Option<usize>,
}

/// Returns where the file of this number begins.
fn start_of(file: u32) -> Place {
    Place {
        file,
        line: 1,
        column: 1,
    }
}

/// Returns whether the text is UTF-16, by its first bytes.
fn is_utf16(text: &[u8]) -> bool {
    matches!(
        text,
        [0xff, 0xfe, ..] | [0xfe, 0xff, ..] | [0, _, 0, _, ..] | [_, 0, _, 0, ..]
    )
}

impl Reader {
    /// Begins to read a file, which is named at this place.
    fn open(&mut self, file: ReadFile, place: Place, has_sets: bool) -> Result<(), AllocError> {
        let ReadFile { number, text } = file;
        if self.words.stream.open_count() >= MOST_OPEN {
            let text = b"files include one another more than 32 deep; include fewer";
            return self.lose(place, &[text]);
        }
        if is_utf16(text.as_slice()) {
            return self.lose(start_of(number), &[b"the file is UTF-16; save it as UTF-8"]);
        }
        if let Some(word) = first_word(text.as_slice())
            && let Some(remedy) = wrong_file(has_sets, word.text)
        {
            return self.report_wrong_file(number, text.as_slice(), word, remedy);
        }
        if !self.words.stream.open_file(number, text, has_sets)? {
            let text = b"the file is among those that include it; drop this include";
            self.words.report(place, &[text])?;
        }
        Ok(())
    }

    /// Reports that a text is of another kind of file, by its first word.
    fn report_wrong_file(
        &mut self,
        number: u32,
        text: &[u8],
        word: FirstWord<'_>,
        remedy: &[u8],
    ) -> Result<(), AllocError> {
        let place = Place {
            file: number,
            line: word.line,
            column: word.column,
        };
        match first_loaded(text) {
            Some(loaded) => {
                let gap: &[u8] = if loaded.macros.is_empty() { b"" } else { b" " };
                let parts: [&[u8]; 7] = [
                    b"'",
                    word.text,
                    remedy,
                    b", as ",
                    loaded.file,
                    gap,
                    loaded.macros,
                ];
                self.lose(place, &parts)
            }
            None => self.lose(place, &[b"'", word.text, remedy]),
        }
    }

    /// Reports what keeps a file from being read.
    fn lose(&mut self, place: Place, parts: &[&[u8]]) -> Result<(), AllocError> {
        self.words.lacks_records = true;
        self.words.report(place, parts)
    }

    /// Returns the file that this word names. One that can't be read is reported.
    fn find<S: Sources>(
        &mut self,
        sources: &mut S,
        name: Word,
    ) -> Result<Option<ReadFile>, AllocError> {
        let text = name.text.as_slice();
        let found = self.files.find(sources, name.place.file, text)?;
        if found.is_none() {
            self.lose(name.place, &[b"cannot read '", text, b"'"])?;
        }
        Ok(found)
    }

    /// Begins to read the file that this word names.
    fn include<S: Sources>(&mut self, sources: &mut S, name: Word) -> Result<(), AllocError> {
        let place = name.place;
        match self.find(sources, name)? {
            Some(file) => self.open(file, place, false),
            None => Ok(()),
        }
    }

    /// Reads the body of a record.
    fn read_body<S: Sources>(
        &mut self,
        sources: &mut S,
        opening: Opening,
    ) -> Result<Body, AllocError> {
        let mut body = Body::new(self.alloc);
        for _ in 0..u64::MAX {
            match read_entries(&mut self.words, opening, &mut body)? {
                Some(file) => self.include(sources, file)?,
                None => break,
            }
        }
        Ok(body)
    }

    /// Takes the bracket that opens a body. One that is missing before a field is reported, if the head is
    /// known. Returns whether there is a body.
    fn opens_body(&mut self, is_known: bool) -> Result<bool, AllocError> {
        if self.words.is_at(b'{')? {
            self.words.take()?;
            return Ok(true);
        }
        let is_field = self.words.is_at_field()?;
        if is_field && is_known {
            self.words.expect(b'{')?;
        }
        Ok(is_field)
    }

    /// Reads a record, whose first word is at this place.
    fn read_record<S: Sources>(&mut self, sources: &mut S, place: Place) -> Result<(), AllocError> {
        let head = record_head(&mut self.words)?;
        let name = match &head {
            Some((_, name)) => name.text.as_slice(),
            None => &[],
        };
        self.words.lacks_entries = false;
        let body = if self.opens_body(head.is_some())? {
            let place = self.words.last;
            self.read_body(sources, Opening { place, name })?
        } else {
            Body::new(self.alloc)
        };
        let Body {
            entries,
            aliases,
            ..
        } = body;
        if let Some((record_type, name)) = head {
            let lacks_entries = self.words.lacks_entries;
            self.add(Statement::Record(RecordText {
                place,
                record_type,
                name,
                entries,
                aliases,
                lacks_entries,
            }))?;
        }
        Ok(())
    }

    /// Notes how many statements stand before the first loss, if there was one.
    fn note_loss(&mut self) {
        if self.words.lacks_records && self.first_loss.is_none() {
            self.first_loss = Some(self.statements.len());
        }
    }

    /// Adds a statement.
    fn add(&mut self, statement: Statement) -> Result<(), AllocError> {
        self.note_loss();
        Ok(self.statements.push(statement)?)
    }

    /// Reads the folders behind `path` or `addpath`.
    fn read_path(&mut self, is_added: bool) -> Result<(), AllocError> {
        let Some(folders) = self.words.expect_text(b"the folders")? else {
            return self.words.recover(false);
        };
        if !is_added {
            self.files.clear_folders();
        }
        self.files.add_folders(folders.text.as_slice())
    }

    /// Reads statements up to the end of the files that are open.
    fn read_statements<S: Sources>(&mut self, sources: &mut S) -> Result<(), AllocError> {
        for _ in 0..u64::MAX {
            let Some((found, token)) = next_heading(&mut self.words)? else {
                break;
            };
            match found {
                Keyword::Record => self.read_record(sources, token.place)?,
                Keyword::Alias => {
                    if let Some(alias) = alias_statement(&mut self.words)? {
                        self.add(alias)?;
                    }
                }
                Keyword::Include => match self.words.expect_text(b"the file's name")? {
                    Some(file) => self.include(sources, file)?,
                    None => {
                        self.words.lacks_records = true;
                        self.words.recover(false)?;
                    }
                },
                Keyword::Path => self.read_path(token.text.starts_with(b"add"))?,
                Keyword::Field | Keyword::Info | Keyword::Definition => {
                    let skipped = skipped_statement(&mut self.words, token)?;
                    self.add(skipped)?;
                }
            }
        }
        Ok(())
    }

    /// Reads a file of the request.
    fn read_file<S: Sources>(&mut self, sources: &mut S, path: &[u8]) -> Result<(), AllocError> {
        let number = self.files.number(path)?;
        let place = start_of(number);
        let Some(text) = sources.read(path)? else {
            return self.lose(place, &[b"cannot read '", path, b"'"]);
        };
        let has_sets = is_substitution_file(path);
        self.texts.push(SourceText {
            file: number,
            has_sets,
            text: text.as_slice().to_vec(self.alloc)?,
        })?;
        self.open(ReadFile { number, text }, place, has_sets)?;
        if has_sets {
            for group in read_groups(&mut self.words)? {
                self.read_group(sources, group)?;
            }
            return Ok(());
        }
        self.read_statements(sources)
    }

    /// Reads a template with the macros of each of its sets.
    fn read_group<S: Sources>(&mut self, sources: &mut S, group: Group) -> Result<(), AllocError> {
        let Group { template, sets } = group;
        if sets.is_empty() {
            return Ok(());
        }
        let Some(template) = self.words.stream.replaced_name(&template)? else {
            self.words.lacks_records = true;
            return Ok(());
        };
        let place = template.place;
        let Some(file) = self.find(sources, template)? else {
            return Ok(());
        };
        let count = self.words.stream.macro_count();
        for set in sets {
            for definition in set {
                self.words.stream.define(definition)?;
            }
            let text = file.text.as_slice().to_vec(self.alloc)?;
            let number = file.number;
            self.open(ReadFile { number, text }, place, false)?;
            self.read_statements(sources)?;
            self.words.stream.keep_macros(count);
        }
        Ok(())
    }

    /// Reads the files of a request. Its macros and folders hold in these files alone.
    fn read_all<S: Sources>(
        &mut self,
        sources: &mut S,
        request: Request,
    ) -> Result<(), AllocError> {
        self.words.stream.set_alone(request.is_alone);
        self.files.clear_folders();
        for folder in request.folders {
            self.files.add_folders(folder)?;
        }
        let before = self.words.stream.macro_count();
        self.words.stream.define_all(request.macros)?;
        for path in request.paths {
            let count = self.words.stream.macro_count();
            self.read_file(sources, path)?;
            self.words.stream.keep_macros(count);
        }
        self.words.stream.keep_macros(before);
        Ok(())
    }
}

/// Reads files with the files that they include. Every mistake is a finding, and reading goes on
/// behind it.
///
/// # Errors
///
/// [`AllocError`] if allocation fails.
pub fn read_files<S: Sources>(
    alloc: Global,
    sources: &mut S,
    request: Request,
) -> Result<Reading, AllocError> {
    read_each(alloc, sources, &[request])
}

/// Reads the files of these requests, one after another, as [`read_files`] does. They are one database.
///
/// # Errors
///
/// [`AllocError`] if allocation fails.
pub fn read_each<S: Sources>(
    alloc: Global,
    sources: &mut S,
    requests: &[Request],
) -> Result<Reading, AllocError> {
    let mut reader = Reader {
        alloc,
        files: Files::new(alloc),
        words: Words::new(alloc),
        statements: Vec::new(alloc),
        texts: Vec::new(alloc),
        first_loss: None,
    };
    for request in requests {
        reader.read_all(sources, *request)?;
    }
    reader.note_loss();
    let Reader {
        files,
        words,
        statements,
        texts,
        first_loss,
        ..
    } = reader;
    Ok(Reading {
        files: files.into_paths(),
        texts,
        statements,
        first_loss,
        findings: words.into_findings(),
    })
}
