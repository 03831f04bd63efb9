//! The words of database files.
use ioc_site::Place;

/// What a token is.
#[derive(Clone, Copy, Debug, PartialEq, Eq)]
pub enum Kind {
    /// One of `(`, `)`, `{`, `}` and `,`.
    Sign(u8),
    Word,
    /// The bytes between quotes as they are written.
    Quoted,
    /// No token can be made here; its text says why.
    Fault,
}

/// A token.
#[derive(Drop)]
pub struct Token {
    /// What it is.
    pub kind: Kind,
    /// Its bytes, without quotes. Of a sign there are none.
    pub text: Vec<u8>,
    /// Where it begins in its file, before macros were replaced.
    pub place: Place,
    /// The byte that follows on the line, behind blanks.
    pub next: Option<u8>,
}

/// A word that begins a statement or an entry of a record.
#[derive(Clone, Copy, Debug, PartialEq, Eq)]
pub enum Keyword {
    Record,
    Alias,
    Include,
    Path,
    Field,
    Info,
    /// A statement that has no part in records.
    Definition,
}

/// Returns what a word begins.
pub fn keyword_of(text: &[u8]) -> Option<Keyword> {
    match text {
        b"field" => Some(Keyword::Field),
        b"record" | b"grecord" => Some(Keyword::Record),
        b"info" => Some(Keyword::Info),
        b"alias" => Some(Keyword::Alias),
        b"include" => Some(Keyword::Include),
        b"path" | b"addpath" => Some(Keyword::Path),
        b"menu"
        | b"recordtype"
        | b"device"
        | b"driver"
        | b"registrar"
        | b"function"
        | b"variable"
        | b"breaktable"
        | b"link" => Some(Keyword::Definition),
        _ => None,
    }
}

impl Token {
    /// Returns its bytes, without quotes.
    pub fn bytes(&self) -> &[u8] {
        match self.kind {
            Kind::Sign(b'(') => b"(",
            Kind::Sign(b')') => b")",
            Kind::Sign(b'{') => b"{",
            Kind::Sign(b'}') => b"}",
            Kind::Sign(_) => b",",
            Kind::Word | Kind::Quoted | Kind::Fault => self.text.as_slice(),
        }
    }

    /// Returns whether the token is this sign.
    pub fn is_sign(&self, sign: u8) -> bool {
        self.kind == Kind::Sign(sign)
    }

    /// Returns whether the token is this word.
    pub fn is_word(&self, word: &str) -> bool {
        self.kind == Kind::Word && self.text.as_slice() == word.as_bytes()
    }

    /// Returns what the token begins, if it is a word that what belongs to it follows.
    pub fn heading(&self) -> Option<Keyword> {
        if self.kind != Kind::Word {
            return None;
        }
        let found = keyword_of(self.text.as_slice())?;
        let wanted = match found {
            Keyword::Include | Keyword::Path => b'"',
            _ => b'(',
        };
        if self.next == Some(wanted) {
            Some(found)
        } else {
            None
        }
    }

    /// Returns whether the token is a word or a text between quotes that begins nothing.
    pub fn is_text(&self) -> bool {
        match self.kind {
            Kind::Quoted => true,
            Kind::Word => self.heading().is_none(),
            Kind::Sign(_) | Kind::Fault => false,
        }
    }

    /// Returns whether a record begins with the token.
    pub fn begins_record(&self) -> bool {
        self.heading() == Some(Keyword::Record)
    }

    /// Returns whether an include begins with the token.
    pub fn begins_include(&self) -> bool {
        self.heading() == Some(Keyword::Include)
    }

    /// Returns whether a statement that can't stand within a record begins with the token.
    pub fn begins_statement(&self) -> bool {
        matches!(
            self.heading(),
            Some(Keyword::Record | Keyword::Path | Keyword::Definition)
        )
    }
}
