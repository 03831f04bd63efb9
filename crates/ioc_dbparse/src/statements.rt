//! The statements that tokens form.
ghost use Rattle.std.specs.Prelude.{◌≡◌, ◌<◌, length};
ghost use Rattle.ioc_dbparse.specs.Statements.{Gives, Fails, named_type, type_at, opened, name_at, record_at, found_at, alias_at};
ghost use Rattle.ioc_dbparse.specs.Statements.{statement_of, statement_at, statements_at, filled};
ghost use Rattle.ioc_dbparse.specs.Rules.{Builds};
ghost use Rattle.ioc_dblex.specs.SeenToken.{seen};

use crate::builder::{BuildError, Builder};
use crate::entries::RecordEntries;
use crate::words::{
    begins_record, expect, fault, is_sign_of, is_value, is_word, name_line, next_at, refused_word,
    sound, text_of, value_at,
};
use ioc_dblex::{Token, Tokens};
use ioc_fields::RecordType;
use ioc_names::RecordNo;
use ioc_values::{BadDbKind, LoadError};
use std::alloc::Global;

/// Returns the type that a text names: `Some(None)` for `*`, which means any type that the record
/// has, and `None` if there is no such type.
#[tactic(auto, unfolding(crate::specs::Statements::named_type))]
fn named_type<B: Builder>(builder: &B, text: &[u8]) -> Option<Option<RecordType>>
    ensures { result ≡ named_type B.rules text.now }
{
    if text == b"*".as_slice() {
        return Some(None);
    }
    match builder.type_of(text) {
        Some(record_type) => Some(Some(record_type)),
        None => None,
    }
}

/// Reads TYPE; the result is `None` for `*`.
#[tactic(auto, unfolding(crate::specs::Statements::type_at))]
fn type_at<B: Builder>(
    alloc: Global,
    last: u64,
    builder: &B,
    tokens: &mut Tokens<'_>,
) -> Result<Option<RecordType>, LoadError>
    ensures { Gives (λ t. (t, tokens.new)) result (type_at B.rules last tokens.old) }
{
    let token = next_at(last, tokens)?;
    if is_sign_of(b'*', token.kind) {
        return Ok(None);
    }
    if !is_value(token.kind) {
        return Err(fault(token.line, BadDbKind::Syntax));
    }
    let name = text_of(alloc, false, &token)?;
    match named_type(builder, name.as_slice()) {
        Some(record_type) => Ok(record_type),
        None => Err(fault(token.line, BadDbKind::BadType)),
    }
}

/// Returns the record with this type and name. With any type, the record must exist.
fn opened<B: Builder>(
    record_type: Option<RecordType>,
    name: &[u8],
    builder: &mut B,
) -> Result<RecordNo, BuildError>
    ensures { Builds (λ n. (n, builder.new)) result (opened B.rules record_type name.now builder.old) }
{
    match record_type {
        Some(record_type) => builder.add(record_type, name),
        None => match builder.find(name) {
            Ok(number) => Ok(number),
            Err(kind) => Err(BuildError::Refused(kind)),
        },
    }
}

/// Reads NAME, finds or adds the record, and returns its number.
#[tactic(auto, unfolding(crate::specs::Statements::name_at))]
fn name_at<B: Builder>(
    alloc: Global,
    last: u64,
    begun: u64,
    record_type: Option<RecordType>,
    builder: &mut B,
    tokens: &mut Tokens<'_>,
) -> Result<RecordNo, LoadError>
    ensures { Gives (λ n. (n, builder.new, tokens.new)) result (name_at B.rules last begun record_type builder.old tokens.old) }
{
    let token = value_at(last, tokens)?;
    let name = text_of(alloc, false, &token)?;
    match opened(record_type, name.as_slice(), builder) {
        Ok(number) => Ok(number),
        Err(BuildError::Memory) => Err(LoadError::NoMemory),
        Err(BuildError::Refused(kind)) => Err(fault(name_line(begun, token.line, kind), kind)),
    }
}

/// Reads `(TYPE, NAME) { .. }` after the first word of the statement on this line.
#[tactic(auto, unfolding(crate::specs::Statements::record_at))]
fn record_at<B: Builder>(
    alloc: Global,
    turns: u64,
    last: u64,
    begun: u64,
    builder: &mut B,
    tokens: &mut Tokens<'_>,
) -> Result<(), LoadError>
    ensures { Gives (λ _. (builder.new, tokens.new)) result (record_at B.rules turns last begun builder.old tokens.old) }
{
    expect(b'(', last, tokens)?;
    let record_type = type_at(alloc, last, &*builder, tokens)?;
    expect(b',', last, tokens)?;
    let number = name_at(alloc, last, begun, record_type, builder, tokens)?;
    expect(b')', last, tokens)?;
    let entries = RecordEntries {
        alloc,
        last,
        number,
    };
    entries.braces_at(turns, builder, tokens)
}

/// Reads NAME of `alias(NAME, A)`.
#[tactic(auto, unfolding(crate::specs::Statements::found_at))]
fn found_at<B: Builder>(
    alloc: Global,
    last: u64,
    builder: &B,
    tokens: &mut Tokens<'_>,
) -> Result<RecordNo, LoadError>
    ensures { Gives (λ n. (n, tokens.new)) result (found_at B.rules last builder.now tokens.old) }
{
    let token = value_at(last, tokens)?;
    let name = text_of(alloc, false, &token)?;
    match builder.find(name.as_slice()) {
        Ok(number) => Ok(number),
        Err(kind) => Err(fault(token.line, kind)),
    }
}

/// Reads `(NAME, A)` after the word `alias`.
#[tactic(auto, unfolding(crate::specs::Statements::alias_at))]
fn alias_at<B: Builder>(
    alloc: Global,
    last: u64,
    builder: &mut B,
    tokens: &mut Tokens<'_>,
) -> Result<(), LoadError>
    ensures { Gives (λ _. (builder.new, tokens.new)) result (alias_at B.rules last builder.old tokens.old) }
{
    expect(b'(', last, tokens)?;
    let number = found_at(alloc, last, &*builder, tokens)?;
    expect(b',', last, tokens)?;
    let entries = RecordEntries {
        alloc,
        last,
        number,
    };
    entries.second_at(builder, tokens)?;
    expect(b')', last, tokens)?;
    Ok(())
}

/// Reads the rest of a statement after its first word.
#[tactic(auto, unfolding(crate::specs::Statements::statement_of))]
fn statement_of<B: Builder>(
    alloc: Global,
    turns: u64,
    last: u64,
    token: &Token<'_>,
    builder: &mut B,
    tokens: &mut Tokens<'_>,
) -> Result<(), LoadError>
    ensures { Gives (λ _. (builder.new, tokens.new)) result (statement_of B.rules turns last builder.old (seen token.now, tokens.old)) }
{
    if begins_record(token) {
        return record_at(alloc, turns, last, token.line, builder, tokens);
    }
    if is_word(b"alias", token) {
        return alias_at(alloc, last, builder, tokens);
    }
    Err(fault(token.line, refused_word(token)))
}

/// Reads one statement, and returns whether there may be more, which is not so at the end.
#[tactic(auto, unfolding(crate::specs::Statements::statement_at))]
fn statement_at<B: Builder>(
    alloc: Global,
    turns: u64,
    last: u64,
    builder: &mut B,
    tokens: &mut Tokens<'_>,
) -> Result<bool, LoadError>
    ensures { Gives (λ more. (more, builder.new, tokens.new)) result (statement_at B.rules turns last builder.old tokens.old) }
{
    let Some(token) = tokens.next() else {
        return Ok(false);
    };
    let token = sound(token)?;
    statement_of(alloc, turns, last, &token, builder, tokens)?;
    Ok(true)
}

/// Reads all statements, at most as many as the bound.
#[tactic(auto, using(crate::proofs::Loop::goes_on, crate::proofs::Loop::is_done, crate::proofs::Loop::is_out))]
fn statements_at<B: Builder>(
    alloc: Global,
    turns: u64,
    last: u64,
    builder: &mut B,
    tokens: &mut Tokens<'_>,
) -> Result<(), LoadError>
    ensures { Gives (λ _. (builder.new, tokens.new)) result (statements_at B.rules turns last builder.old tokens.old) }
{
    for _ in 0..turns {
        if !statement_at(alloc, turns, last, builder, tokens)? {
            return Ok(());
        }
    }
    Err(fault(last, BadDbKind::OpenBody))
}

/// Fills a database with the statements that tokens form, in a text with this last line. The bound
/// on the turns must be above the number of tokens.
pub fn fill<B: Builder>(
    alloc: Global,
    turns: u64,
    last: u64,
    builder: &mut B,
    tokens: &mut Tokens<'_>,
) -> Result<(), LoadError>
    requires { length tokens.old < turns }
    ensures { Gives (λ _. builder.new) result (filled B.rules last builder.old tokens.old) }
{
    statements_at(alloc, turns, last, builder, tokens)
}
