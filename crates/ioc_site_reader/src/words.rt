//! What a statement is made of, and how reading goes on behind a mistake.
use ioc_site::{Finding, Place, Word};
use ioc_site_lines::{Json, Keyword, Kind, Stream, Token, joined, shown};
use std::alloc::{AllocError, Global};
use std::mem;

/// The most bytes of a statement that a message shows.
const MOST_CONTEXT: usize = 100;

/// How recovery goes on at a token.
#[derive(Clone, Copy, Debug, PartialEq, Eq)]
enum Step {
    /// It stops before the token.
    Stop,
    Pass,
    /// It stops behind the token.
    Last,
}

/// The tokens, and what of a statement is read.
#[derive(Drop)]
pub struct Words {
    pub stream: Stream,
    /// The statement or the entry as far as it is read.
    context: Vec<u8>,
    /// How many round brackets of it are open.
    round: u32,
    /// Where the last token is.
    pub last: Place,
    /// Whether a file or a statement couldn't be read.
    pub lacks_records: bool,
    /// Whether an entry of the body that is being read couldn't be read.
    pub lacks_entries: bool,
}

impl Words {
    /// Begins with no open file.
    pub fn new(alloc: Global) -> Self {
        let last = Place {
            file: 0,
            line: 1,
            column: 1,
        };
        Words {
            stream: Stream::new(alloc),
            context: Vec::new(alloc),
            round: 0,
            last,
            lacks_records: false,
            lacks_entries: false,
        }
    }

    /// Begins a statement or an entry.
    pub fn start(&mut self) {
        self.context.truncate(0);
        self.round = 0;
    }

    /// Adds an error.
    ///
    /// # Errors
    ///
    /// [`AllocError`] if allocation fails.
    pub fn report(&mut self, place: Place, parts: &[&[u8]]) -> Result<(), AllocError> {
        self.stream.findings.report(place, parts)
    }

    /// Reports a word that is near to the name of what is wanted.
    ///
    /// # Errors
    ///
    /// [`AllocError`] if allocation fails.
    pub fn report_misspelt(
        &mut self,
        token: &Token,
        wanted: &str,
        near: &str,
    ) -> Result<(), AllocError> {
        let (wanted, near) = (wanted.as_bytes(), near.as_bytes());
        let parts = [
            b"'".as_slice(),
            token.bytes(),
            b"' is no ",
            wanted,
            b"; did you mean ",
            near,
            b"?",
        ];
        self.report(token.place, &parts)
    }

    /// Returns what was found.
    pub fn into_findings(self) -> Vec<Finding> {
        let Words { stream, .. } = self;
        stream.into_findings()
    }

    /// Adds a token's text to the context.
    fn show(&mut self, kind: Kind, text: &[u8]) -> Result<(), AllocError> {
        if self.context.len() > MOST_CONTEXT {
            return Ok(());
        }
        let is_text = matches!(kind, Kind::Word | Kind::Quoted);
        if is_text
            && !matches!(
                self.context.last().copied(),
                None | Some(b'(' | b'{' | b' ')
            )
        {
            self.context.push(b' ')?;
        }
        match kind {
            Kind::Sign(b',') => self.context.extend_from_slice(b", "),
            Kind::Quoted => {
                self.context.push(b'"')?;
                self.context.extend_from_slice(shown(text))?;
                self.context.extend_from_slice(b"\"")
            }
            _ => self.context.extend_from_slice(shown(text)),
        }
    }

    /// Takes the next token.
    ///
    /// # Errors
    ///
    /// [`AllocError`] if allocation fails.
    pub fn take(&mut self) -> Result<Option<Token>, AllocError> {
        self.stream.look()?;
        let Some(token) = mem::replace(&mut self.stream.ahead, None) else {
            return Ok(None);
        };
        self.last = token.place;
        match token.kind {
            Kind::Sign(b'(') => self.round = self.round.saturating_add(1),
            Kind::Sign(b')') => self.round = self.round.saturating_sub(1),
            _ => {}
        }
        self.show(token.kind, token.bytes())?;
        Ok(Some(token))
    }

    /// Returns whether the next token is this sign.
    ///
    /// # Errors
    ///
    /// [`AllocError`] if allocation fails.
    pub fn is_at(&mut self, sign: u8) -> Result<bool, AllocError> {
        self.stream.look()?;
        Ok(match &self.stream.ahead {
            Some(token) => token.is_sign(sign),
            None => false,
        })
    }

    /// Returns whether the next token begins a field or an info.
    ///
    /// # Errors
    ///
    /// [`AllocError`] if allocation fails.
    pub fn is_at_field(&mut self) -> Result<bool, AllocError> {
        self.stream.look()?;
        Ok(match &self.stream.ahead {
            Some(token) => matches!(token.heading(), Some(Keyword::Field | Keyword::Info)),
            None => false,
        })
    }

    /// Returns where something is missing: at the next token if it is on the same line, else at the
    /// last one.
    fn missing_place(&self) -> Place {
        match &self.stream.ahead {
            Some(token)
                if token.place.file == self.last.file && token.place.line == self.last.line => {
                token.place
            }
            _ => self.last,
        }
    }

    /// Reports a token that is none, and takes it. Returns whether the next token is that.
    ///
    /// # Errors
    ///
    /// [`AllocError`] if allocation fails.
    pub fn take_fault(&mut self) -> Result<bool, AllocError> {
        let is_fault = match &self.stream.ahead {
            Some(token) => token.kind == Kind::Fault,
            None => false,
        };
        if is_fault && let Some(token) = mem::replace(&mut self.stream.ahead, None) {
            self.stream.findings.report_text(token.place, token.text)?;
        }
        Ok(is_fault)
    }

    /// Reports what is missing here.
    fn report_missing(&mut self, missing: &[u8], remedy: &[u8]) -> Result<(), AllocError> {
        if self.take_fault()? {
            return Ok(());
        }
        let mut text = missing.to_vec(self.stream.alloc)?;
        text.extend_from_slice(b" is missing")?;
        if !self.context.is_empty() {
            text.extend_from_slice(b" behind ")?;
            text.extend_from_slice(self.context.as_slice())?;
        }
        text.extend_from_slice(b"; ")?;
        text.extend_from_slice(remedy)?;
        let place = self.missing_place();
        self.stream.findings.report_text(place, text)
    }

    /// Takes a sign. Returns whether it is there; if not, that is reported.
    ///
    /// # Errors
    ///
    /// [`AllocError`] if allocation fails.
    pub fn expect(&mut self, sign: u8) -> Result<bool, AllocError> {
        if self.is_at(sign)? {
            self.take()?;
            return Ok(true);
        }
        let missing = [b'\'', sign, b'\''];
        let remedy = joined(self.stream.alloc, &[b"put ", &missing, b" there"])?;
        self.report_missing(&missing, remedy.as_slice())?;
        Ok(false)
    }

    /// Takes a word or a text between quotes as it is written. If there is none, that is reported.
    fn expect_written(&mut self, missing: &[u8]) -> Result<Option<Word>, AllocError> {
        self.stream.look()?;
        let is_text = match &self.stream.ahead {
            Some(token) => token.is_text(),
            None => false,
        };
        if !is_text {
            self.report_missing(missing, b"put it there")?;
            return Ok(None);
        }
        let Some(token) = self.take()? else {
            return Ok(None);
        };
        Ok(Some(Word {
            text: token.text,
            place: token.place,
            quoted: token.kind == Kind::Quoted,
        }))
    }

    /// Takes a name, a type or a path: a word or a text between quotes. If there is none, that is reported.
    ///
    /// # Errors
    ///
    /// [`AllocError`] if allocation fails.
    pub fn expect_text(&mut self, missing: &[u8]) -> Result<Option<Word>, AllocError> {
        match self.expect_written(missing)? {
            Some(
                Word {
                    text,
                    place,
                    quoted: true,
                },
            ) => Ok(Some(Word {
                text: self.stream.name_text(text)?,
                place,
                quoted: true,
            })),
            other => Ok(other),
        }
    }

    /// Takes the comma between two texts. One that is missing before the second text is reported, and
    /// reading goes on as if it were there. Returns whether it goes on.
    ///
    /// # Errors
    ///
    /// [`AllocError`] if allocation fails.
    pub fn expect_comma(&mut self) -> Result<bool, AllocError> {
        if self.expect(b',')? {
            return Ok(true);
        }
        self.stream.look()?;
        Ok(match &self.stream.ahead {
            Some(token) => token.is_text(),
            None => false,
        })
    }

    /// Takes `(FIRST, SECOND`. What is missing is reported.
    ///
    /// # Errors
    ///
    /// [`AllocError`] if allocation fails.
    pub fn expect_pair(
        &mut self,
        first: &[u8],
        second: &[u8],
    ) -> Result<Option<(Word, Word)>, AllocError> {
        if !self.expect(b'(')? {
            return Ok(None);
        }
        let Some(front) = self.expect_text(first)? else {
            return Ok(None);
        };
        if !self.expect_comma()? {
            return Ok(None);
        }
        let Some(back) = self.expect_text(second)? else {
            return Ok(None);
        };
        Ok(Some((front, back)))
    }

    // Returns whether a value without quotes goes on behind its first word: on its line stands what begins
    // nothing of its own.
    fn goes_on(&self, value: &Word) -> bool {
        let Some(token) = &self.stream.ahead else {
            return false;
        };
        let is_part = match token.kind {
            Kind::Word => token.heading().is_none(),
            Kind::Sign(sign) => sign == b',',
            Kind::Fault | Kind::Quoted => true,
        };
        !value.quoted
            && is_part
            && (token.place.file, token.place.line) == (value.place.file, value.place.line)
    }

    /// Takes the bracket behind a value, or behind the name of a record, in whose head recovery stops at a
    /// brace. One that is missing is reported, and what is before the next entry is passed. Returns whether
    /// the value is whole.
    ///
    /// # Errors
    ///
    /// [`AllocError`] if allocation fails.
    pub fn expect_close(&mut self, value: &Word, stops_at_brace: bool) -> Result<bool, AllocError> {
        self.stream.look()?;
        if self.goes_on(value) {
            let text: &[u8] =
                b"a value with spaces or signs stands in double quotes; put '\"' before and behind it";
            self.report(value.place, &[text])?;
            return Ok(false);
        }
        if self.take_fault()? {
            return Ok(false);
        }
        if !self.expect(b')')? {
            self.recover(stops_at_brace)?;
        }
        Ok(true)
    }

    /// Passes the rest of an entry that can't be read.
    ///
    /// # Errors
    ///
    /// [`AllocError`] if allocation fails.
    pub fn lose_entry(&mut self) -> Result<(), AllocError> {
        self.lacks_entries = true;
        self.recover(false)
    }

    /// Takes a value: a word, a text between quotes or JSON. What is missing is reported.
    ///
    /// # Errors
    ///
    /// [`AllocError`] if allocation fails.
    pub fn expect_value(&mut self) -> Result<Option<Word>, AllocError> {
        if self.stream.is_at_json()? && self.stream.ahead.is_none() {
            return self.expect_json();
        }
        let Some(word) = self.expect_written(b"the value")? else {
            return Ok(None);
        };
        if !word.quoted {
            // A word that begins with a bracket is no value in JSON, as one between quotes isn't.
            let quoted = word.text.starts_with(b"[");
            return Ok(Some(Word {
                text: word.text,
                place: word.place,
                quoted,
            }));
        }
        Ok(Some(Word {
            text: self.stream.value_text(word.text)?,
            place: word.place,
            quoted: true,
        }))
    }

    /// Takes a value in JSON, whose first bracket is next.
    fn expect_json(&mut self) -> Result<Option<Word>, AllocError> {
        let place = self.stream.place().unwrap_or(self.last);
        self.last = place;
        let mut json = Json::new(self.stream.alloc);
        if self.stream.read_json(&mut json)? {
            self.show(Kind::Word, json.text.as_slice())?;
            return Ok(Some(Word {
                text: json.text,
                place,
                quoted: false,
            }));
        }
        if json.quote.is_some() {
            let text =
                b"a text in the value that begins here isn't closed; put its quote behind it";
            self.report(place, &[text])?;
        } else {
            let closer = json.closer();
            self.report(
                place,
                &[
                    b"the value that begins here isn't closed; put '",
                    &[closer],
                    b"' behind it",
                ],
            )?;
        }
        Ok(None)
    }

    /// Returns how recovery goes on at the next token.
    fn step(&self, stops_at_brace: bool, braces: u32) -> Step {
        let Some(token) = &self.stream.ahead else {
            return Step::Stop;
        };
        if token.heading().is_some() {
            return Step::Stop;
        }
        match token.kind {
            Kind::Sign(b'{') if stops_at_brace => Step::Stop,
            Kind::Sign(b'}') if stops_at_brace && self.round == 1 => Step::Last,
            Kind::Sign(b'}') if braces == 0 => Step::Stop,
            Kind::Sign(b')') if braces == 0 && self.round <= 1 => Step::Last,
            _ => Step::Pass,
        }
    }

    /// Passes the rest of a statement's head or of an entry, in which something is missing.
    ///
    /// # Errors
    ///
    /// [`AllocError`] if allocation fails.
    pub fn recover(&mut self, stops_at_brace: bool) -> Result<(), AllocError> {
        let mut braces = 0u32;
        for _ in 0..u64::MAX {
            self.stream.look()?;
            let step = self.step(stops_at_brace, braces);
            if step == Step::Stop {
                break;
            }
            if let Some(token) = self.take()? {
                match token.kind {
                    Kind::Sign(b'{') => braces = braces.saturating_add(1),
                    Kind::Sign(b'}') => braces = braces.saturating_sub(1),
                    _ => {}
                }
            }
            if step == Step::Last {
                break;
            }
        }
        Ok(())
    }

    /// Passes what is before the next statement, but an alias.
    ///
    /// # Errors
    ///
    /// [`AllocError`] if allocation fails.
    pub fn skip_to_statement(&mut self) -> Result<(), AllocError> {
        for _ in 0..u64::MAX {
            self.stream.look()?;
            let stops = match &self.stream.ahead {
                Some(token) => token.begins_statement() || token.begins_include(),
                None => true,
            };
            if stops {
                break;
            }
            self.take()?;
        }
        Ok(())
    }

    /// Passes tokens up to the bracket that closes the one that is next. Returns whether it is
    /// there, before the next record.
    fn pass_group(&mut self, open: u8, close: u8) -> Result<bool, AllocError> {
        let mut depth = 0u32;
        for _ in 0..u64::MAX {
            self.stream.look()?;
            let Some(token) = &self.stream.ahead else {
                break;
            };
            if token.begins_record() {
                break;
            }
            if token.is_sign(open) {
                depth = depth.saturating_add(1);
            }
            if token.is_sign(close) {
                depth = depth.saturating_sub(1);
            }
            self.take()?;
            if depth == 0 {
                return Ok(true);
            }
        }
        Ok(false)
    }

    /// Passes brackets with all that is in them, if they are next.
    ///
    /// # Errors
    ///
    /// [`AllocError`] if allocation fails.
    pub fn skip_group(&mut self, open: u8, close: u8) -> Result<(), AllocError> {
        self.stream.look()?;
        let place = match &self.stream.ahead {
            Some(token) if token.is_sign(open) => token.place,
            _ => return Ok(()),
        };
        if self.pass_group(open, close)? {
            return Ok(());
        }
        self.report(
            place,
            &[
                b"'",
                &[open],
                b"' isn't closed; put '",
                &[close],
                b"' at its end",
            ],
        )
    }
}
