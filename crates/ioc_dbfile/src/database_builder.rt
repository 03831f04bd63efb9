//! The builder of a database from statements.
ghost use Rattle.std.specs.Prelude.{◌≡◌, ◌↔◌, [], true, IsSome, IfSome, IfOk, OnErr, slice_get};
ghost use Rattle.ioc_links.specs.Grammar.{is_record_name};
ghost use Rattle.ioc_dbfile.specs.Loader.{same_type, kind_of_refusal, build_error, kind_of_fault, holds_expression, set_to};
ghost use Rattle.ioc_dbparse.specs.Rules.{Builds};
ghost use Rattle.rec_types.specs.Record.{record_rules};
ghost use Rattle.ioc_names.specs.NameTable.{no_names};

use crate::database::Database;
use crate::new_records::push_new;
use ioc_calc::CalcFaultKind;
use ioc_dbparse::{BuildError, Builder};
use ioc_fields::{FieldKind, FieldNo, RecordType, can_set, field, kind_of};
use ioc_links::is_record_name;
use ioc_names::{Entered, Names, RecordNo};
use ioc_record::{RecordKind, set_calculation, set_field};
use ioc_values::{BadDbKind, IocError, Name};
use rec_types::Record;
use std::alloc::{AllocError, Global};
use std::marker::Model;

/// The maximal number of records of a database.
pub const MAX_RECORDS: usize = 131_072;

/// The names and records of the statements so far.
#[derive(Drop)]
pub struct DatabaseBuilder {
    alloc: Global,
    names: Names,
    records: Vec<Record>,
}

impl Model for DatabaseBuilder {
    ghost use Rattle.ioc_dbfile.specs.Loader.{Loading};
    ghost use Rattle.rec_types.specs.Record.{Record, record_rules};
    ghost use Rattle.ioc_dbfile.specs.Idle.{AllIdle};
    ghost use Rattle.ioc_record.specs.contracts.record.Record as row;
    ghost use Rattle.rec_types.specs.contracts.record.Body as body;
    ghost use Rattle.ioc_dbfile.specs.Loader.{loading_code};

    ghost Value = { Loading Record };

    ghost coded = { loading_code (row.the_row body.the_row).coded };

    ghost view = { λ l. record { names = l.names; records = l.records.items } };

    ghost invariant = { λ l. AllIdle record_rules l.records.items };
}

impl DatabaseBuilder {
    ghost use Rattle.rec_types.specs.Record.{record_rules, new_record};
    ghost use Rattle.ioc_dbfile.specs.Loader.{add_more};
    ghost use Rattle.ioc_dbparse.specs.Rules.{Builds};
    ghost use Rattle.ioc_dbfile.specs.Finished.{all_finished};
    ghost use Rattle.ioc_dbfile.specs.SeenDatabase.{database_of};

    /// Creates a builder without records.
    pub fn new(alloc: Global) -> Self
        ensures { result ≡ record { names = no_names; records = [] } }
    {
        DatabaseBuilder {
            alloc,
            names: Names::new(alloc),
            records: Vec::new(alloc),
        }
    }

    /// Selects an existing record for more fields, if it has this type.
    #[tactic(auto, unfolding(crate::specs::Loader::same_type))]
    fn add_more(&self, record_type: RecordType, number: RecordNo) -> Result<RecordNo, BuildError>
        ensures { Builds (λ n. (n, self.now)) result
            (add_more record_rules new_record record_type self.now number (slice_get self.now.records number)) }
    {
        let Some(record) = self.records.get(number.index()) else {
            return Err(BuildError::Refused(BadDbKind::Duplicate));
        };
        if !same_type(record_type, record.record_type()) {
            return Err(BuildError::Refused(BadDbKind::Duplicate));
        }
        Ok(number)
    }

    /// Creates the database of these names and records: links are resolved and constants are put.
    pub fn finish(self, alloc: Global) -> Result<Database, AllocError>
        ensures { IfOk result (λ d. database_of d ≡ all_finished record_rules self) }
    {
        let DatabaseBuilder { names, records, .. } = self;
        Database::new(alloc, names, records)
    }
}

/// Returns the build error of a field that can't be set.
fn build_error(refusal: IocError) -> BuildError
    ensures { result ≡ build_error refusal }
{
    match refusal {
        IocError::NoMemory => BuildError::Memory,
        _ => BuildError::Refused(kind_of_refusal(refusal)),
    }
}

/// Returns the fault of a database text in which a field can't be set.
fn kind_of_refusal(refusal: IocError) -> BadDbKind
    ensures { result ≡ kind_of_refusal refusal }
{
    match refusal {
        IocError::NoField => BadDbKind::BadField,
        IocError::NoMod => BadDbKind::NoMod,
        IocError::BadLink => BadDbKind::BadLink,
        _ => BadDbKind::BadValue,
    }
}

/// Returns the fault of a database text in which an expression can't be set.
fn kind_of_fault(fault: CalcFaultKind) -> BadDbKind
    ensures { result ≡ kind_of_fault fault }
{
    match fault {
        CalcFaultKind::Bad => BadDbKind::BadCalc,
        CalcFaultKind::LeftOut(word) => BadDbKind::CalcLeftOut(word),
    }
}

/// Returns whether a field of this kind holds an expression.
fn holds_expression(kind: Option<FieldKind>) -> bool
    ensures { result ≡ holds_expression kind }
{
    matches!(kind, Some(FieldKind::Expression))
}

/// Sets a field of a record, an expression or any other, to the value of a text.
#[tactic(auto, unfolding(crate::specs::Loader::set_to))]
fn set_to(alloc: Global, record: &mut Record, field: FieldNo, text: &[u8]) -> Result<(), BuildError>
    ensures built { Builds (λ _. «record».new) result (set_to record_rules «record».old field text.now) }
    ensures same { OnErr result («record».new ≡ «record».old) }
{
    if holds_expression(kind_of(record.record_type(), field)) {
        return match set_calculation(record, field, text) {
            Ok(()) => Ok(()),
            Err(fault) => Err(BuildError::Refused(kind_of_fault(fault))),
        };
    }
    match set_field(alloc, record, field, text) {
        Ok(()) => Ok(()),
        Err(refusal) => Err(build_error(refusal)),
    }
}

#[tactic(auto, unfolding(crate::specs::Loader::find_record, crate::specs::Loader::add_record, crate::specs::Loader::alias_record, crate::specs::Loader::find_field, crate::specs::Loader::set_at, crate::specs::Loader::most_records))]
impl Builder for DatabaseBuilder {
    ghost use Rattle.ioc_dbfile.specs.Loader.{loading};
    ghost use Rattle.rec_types.specs.Record.{record_rules, new_record};

    ghost rules = { loading record_rules new_record };

    fn type_of(&self, name: &[u8]) -> Option<RecordType> {
        RecordType::from_name(name)
    }

    fn find(&self, name: &[u8]) -> Result<RecordNo, BadDbKind> {
        if !is_record_name(name) {
            return Err(BadDbKind::BadName);
        }
        match self.names.find(name) {
            Some(number) => Ok(number),
            None => Err(BadDbKind::NoRecord),
        }
    }

    fn add(&mut self, record_type: RecordType, name: &[u8]) -> Result<RecordNo, BuildError> {
        let Some(short) = valid_name(name) else {
            return Err(BuildError::Refused(BadDbKind::BadName));
        };
        if self.names.len() >= MAX_RECORDS {
            let Some(number) = self.names.find(name) else {
                return Err(BuildError::Refused(BadDbKind::TooMany));
            };
            return self.add_more(record_type, number);
        }
        match self.names.find_or_add(short)? {
            Entered::Before(number) => self.add_more(record_type, number),
            Entered::Now(number) => {
                push_new(self.alloc, &mut self.records, record_type, short)?;
                Ok(number)
            }
        }
    }

    fn alias(&mut self, number: RecordNo, name: &[u8]) -> Result<(), BuildError> {
        let Some(short) = valid_name(name) else {
            return Err(BuildError::Refused(BadDbKind::BadName));
        };
        if self.names.find(name).is_some() {
            return Err(BuildError::Refused(BadDbKind::Duplicate));
        }
        if number.index() >= self.names.len() {
            return Err(BuildError::Refused(BadDbKind::NoRecord));
        }
        self.names.alias(number, short)?;
        Ok(())
    }

    fn field_of(&self, number: RecordNo, name: &[u8]) -> Result<FieldNo, BadDbKind> {
        let Some(record) = self.records.get(number.index()) else {
            return Err(BadDbKind::BadField);
        };
        let record_type = record.record_type();
        let Some(found) = field(record_type, name) else {
            return Err(BadDbKind::BadField);
        };
        if !can_set(record_type, found) {
            return Err(BadDbKind::NoMod);
        }
        Ok(found)
    }

    fn set(&mut self, number: RecordNo, field: FieldNo, value: &[u8]) -> Result<(), BuildError> {
        let place = number.index();
        if place >= self.records.len() {
            return Err(BuildError::Refused(BadDbKind::BadValue));
        }
        set_to(self.alloc, &mut self.records[place], field, value)
    }
}

/// Returns whether two record types are equal.
#[tactic(auto, unfolding(crate::specs::Loader::same_type))]
fn same_type(a: RecordType, b: RecordType) -> bool
    ensures { result ≡ same_type a b }
{
    a.name().as_bytes() == b.name().as_bytes()
}

/// Returns the name if it is a valid record name.
fn valid_name(name: &[u8]) -> Option<Name>
    ensures valid { IsSome result ↔ (is_record_name name.now ≡ true) }
    ensures same { IfSome result (λ n. n ≡ name.now) }
{
    if !is_record_name(name) {
        return None;
    }
    Name::from_slice(name)
}
