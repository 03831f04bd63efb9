//! The errors of the engine's calls.

ghost use Rattle.std.specs.Prelude.{◌≡◌};
ghost use Rattle.ioc_values.specs.Words.{refusal_words, left_out_words, kind_words};
ghost use Rattle.ioc_values.specs.declared.error.IocError.TheVariants.{NoMemory};
ghost use Rattle.ioc_values.specs.declared.error.LoadError.TheVariants.{BadDb, NoMemory as No-memory};

use ioc_calc::LeftOut;
use std::alloc::{AllocError, AllocFailed};
use std::fmt;

/// Why a call failed. The programs print the number of each error.
#[derive(Clone, Copy, PartialEq, Eq, Debug)]
pub enum IocError {
    /// No record or alias has the name.
    NoRecord,
    /// The type has no such field, or a link change names a field that isn't a link.
    NoField,
    /// The field can't be put.
    NoMod,
    /// The record's DISP isn't 0.
    PutDisabled,
    /// The value doesn't convert or is out of range.
    BadValue,
    /// The link text is malformed or contains an unsupported word.
    BadLink,
    /// The link can't be changed while a put with notification is live.
    NotifyPending,
    /// The number of the completion isn't the pending one, or the put with notification isn't live.
    Stale,
    /// A queue or the table of puts with notification is full.
    QueueFull,
    /// Allocation failed.
    NoMemory,
    /// The journal has no room left.
    JournalFull,
    /// The engine is closed.
    Stopped,
}

/// Why a database wasn't loaded.
#[derive(Clone, Copy, PartialEq, Eq, Debug)]
pub enum LoadError {
    /// The database text is invalid.
    BadDb(DbFault),
    /// Allocation failed.
    NoMemory,
}

/// Why a database text was rejected, and the line, counted from 1.
#[derive(Clone, Copy, PartialEq, Eq, Debug)]
pub struct DbFault {
    pub line: u64,
    pub kind: BadDbKind,
}

/// Why a database text was rejected.
#[derive(Clone, Copy, PartialEq, Eq, Debug)]
pub enum BadDbKind {
    Syntax,
    /// A quoted text isn't closed on its line.
    Unclosed,
    /// The text ends inside a statement, but not inside a quoted text.
    OpenBody,
    BadType,
    BadField,
    /// A database text can't set the field.
    NoMod,
    BadName,
    BadValue,
    BadLink,
    /// A record of another type has the name, or the alias is taken.
    Duplicate,
    NoRecord,
    Macro,
    /// The statement belongs to a database definition, which isn't supported.
    LeftOut,
    /// The text has more than 131,072 records or more than 16 MiB.
    TooMany,
    /// An expression doesn't follow the grammar of expressions.
    BadCalc,
    /// An expression uses something that is left out.
    CalcLeftOut(LeftOut),
}

#[tactic(auto, unfolding(crate::specs::Words::refusal_words))]
impl IocError {
    /// Returns the number and the name of the error, such as `E5 BadValue`.
    pub fn words(self) -> &'static str
        ensures { result.now ≡ refusal_words self }
    {
        match self {
            IocError::NoRecord => "E1 NoRecord",
            IocError::NoField => "E2 NoField",
            IocError::NoMod => "E3 NoMod",
            IocError::PutDisabled => "E4 PutDisabled",
            IocError::BadValue => "E5 BadValue",
            IocError::BadLink => "E6 BadLink",
            IocError::NotifyPending => "E7 NotifyPending",
            IocError::Stale => "E8 Stale",
            IocError::QueueFull => "E9 QueueFull",
            IocError::NoMemory => "E10 NoMemory",
            IocError::JournalFull => "E11 JournalFull",
            IocError::Stopped => "E12 Stopped",
        }
    }
}

// Returns the reason why an expression that uses something left out was rejected.
#[tactic(auto, unfolding(crate::specs::Words::left_out_words))]
fn left_out_words(word: LeftOut) -> &'static str
    ensures { result.now ≡ left_out_words word }
{
    match word {
        LeftOut::Acos => "left out in calc: ACOS",
        LeftOut::Asin => "left out in calc: ASIN",
        LeftOut::Atan => "left out in calc: ATAN",
        LeftOut::Atan2 => "left out in calc: ATAN2",
        LeftOut::Cos => "left out in calc: COS",
        LeftOut::Cosh => "left out in calc: COSH",
        LeftOut::Exp => "left out in calc: EXP",
        LeftOut::Ln => "left out in calc: LN",
        LeftOut::Log => "left out in calc: LOG",
        LeftOut::Loge => "left out in calc: LOGE",
        LeftOut::Rndm => "left out in calc: RNDM",
        LeftOut::Sin => "left out in calc: SIN",
        LeftOut::Sinh => "left out in calc: SINH",
        LeftOut::Tan => "left out in calc: TAN",
        LeftOut::Tanh => "left out in calc: TANH",
        LeftOut::Caret => "left out in calc: ^",
        LeftOut::Stars => "left out in calc: **",
    }
}

#[tactic(auto, unfolding(crate::specs::Words::kind_words))]
impl BadDbKind {
    /// Returns the reason, such as `text not closed`.
    pub fn words(self) -> &'static str
        ensures { result.now ≡ kind_words self }
    {
        match self {
            BadDbKind::Syntax => "syntax",
            BadDbKind::Unclosed => "text not closed",
            BadDbKind::OpenBody => "body not closed",
            BadDbKind::BadType => "unknown type",
            BadDbKind::BadField => "unknown field",
            BadDbKind::NoMod => "field not settable",
            BadDbKind::BadName => "bad name",
            BadDbKind::BadValue => "bad value",
            BadDbKind::BadLink => "bad link",
            BadDbKind::Duplicate => "duplicate",
            BadDbKind::NoRecord => "no record",
            BadDbKind::Macro => "macro",
            BadDbKind::LeftOut => "left out",
            BadDbKind::TooMany => "too many",
            BadDbKind::BadCalc => "bad calc",
            BadDbKind::CalcLeftOut(word) => left_out_words(word),
        }
    }
}

#[tactic(auto, unfolding(crate::specs::Words::fault_text))]
impl fmt::Display for DbFault {
    ghost use Rattle.std.specs.Prelude.{Some};
    ghost use Rattle.ioc_values.specs.Words.{fault_text};

    ghost output = { λ fault. Some (fault_text fault) };

    fn fmt<W: fmt::Write>(&self, f: &mut fmt::Formatter<W>) -> fmt::Result {
        write!(f, "E13 BadDb line {}: {}", self.line, self.kind.words())
    }
}

impl fmt::Display for IocError {
    ghost use Rattle.std.specs.Prelude.{Some};

    ghost output = { λ refused. Some (refusal_words refused) };

    fn fmt<W: fmt::Write>(&self, f: &mut fmt::Formatter<W>) -> fmt::Result {
        f.write_str(self.words())
    }
}

#[tactic(auto, unfolding(crate::specs::Words::load_text, crate::specs::Words::refusal_words))]
impl fmt::Display for LoadError {
    ghost use Rattle.std.specs.Prelude.{Some};
    ghost use Rattle.ioc_values.specs.Words.{load_text};

    ghost output = { λ error. Some (load_text error) };

    fn fmt<W: fmt::Write>(&self, f: &mut fmt::Formatter<W>) -> fmt::Result {
        match self {
            LoadError::BadDb(fault) => fault.fmt(f),
            LoadError::NoMemory => f.write_str(IocError::NoMemory.words()),
        }
    }
}

impl std::error::Error for DbFault {}

impl std::error::Error for IocError {}

impl std::error::Error for LoadError {}

impl From<DbFault> for LoadError {
    ghost from_gives = { λ fault e. e ≡ BadDb fault };

    fn from(fault: DbFault) -> LoadError {
        LoadError::BadDb(fault)
    }
}

impl From<AllocError> for LoadError {
    ghost from_gives = { λ _ e. e ≡ No-memory };

    fn from(_e: AllocError) -> LoadError {
        LoadError::NoMemory
    }
}

impl<T: Drop> From<AllocFailed<T>> for LoadError {
    ghost from_gives = { λ _ e. e ≡ No-memory };

    fn from(_e: AllocFailed<T>) -> LoadError {
        LoadError::NoMemory
    }
}

impl From<AllocError> for IocError {
    ghost from_gives = { λ _ e. e ≡ NoMemory };

    fn from(_e: AllocError) -> IocError {
        IocError::NoMemory
    }
}

impl<T: Drop> From<AllocFailed<T>> for IocError {
    ghost from_gives = { λ _ e. e ≡ NoMemory };

    fn from(_e: AllocFailed<T>) -> IocError {
        IocError::NoMemory
    }
}
