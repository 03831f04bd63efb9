//! Fields, links and where they lead.
ghost use Rattle.std.specs.Prelude.{◌≡◌, ◌++◌, ◌∷◌, OnOk};
ghost use Rattle.ioc_fields.specs.Names.{name_of};
ghost use Rattle.ioc_journal_file.specs.Form.{link_text, lead_text, link_field_text};
ghost use Rattle.ioc_journal_file.specs.Reading.{Gives};
ghost use Rattle.ioc_journal_file.specs.Parts.{field_at, database_at, constant_at, link_at, address_at, lead_at, link_field_at};

use crate::lists::{field_of, mode_of, mode_word};
use crate::numbers::{add_integer, add_record, integer_at, record_at};
use crate::texts::{add_text, text_at};
use crate::words::{is_word, split};
use ioc_dbcommon::{FieldAddress, Lead, LinkField};
use ioc_fields::{FieldNo, name_of};
use ioc_links::{Flags, Link, Target};
use std::alloc::AllocError;

/// Appends the name of a field.
pub(crate) fn add_field(out: &mut Vec<u8>, field: FieldNo) -> Result<(), AllocError>
    ensures { OnOk result (out.new.items ≡ out.old.items ++ name_of field) }
{
    out.extend_from_slice(name_of(field).as_bytes())
}

/// Appends the target and the flags of a database link.
#[tactic(auto, unfolding(crate::specs::Form::link_text))]
fn add_database(out: &mut Vec<u8>, target: &Target, flags: Flags) -> Result<(), AllocError>
    ensures { OnOk result (out.new.items ≡ out.old.items ++ link_text (Link.Database target.now flags)) }
{
    out.extend_from_slice(b"database\t")?;
    add_text(out, target.record_name.as_slice())?;
    out.push(b'\t')?;
    add_text(out, target.field.as_slice())?;
    if flags.process_passive {
        out.extend_from_slice(b"\tPP\t")?;
    } else {
        out.extend_from_slice(b"\tNPP\t")?;
    }
    out.extend_from_slice(mode_word(flags.mode).as_bytes())
}

/// Appends a link.
#[tactic(auto, unfolding(crate::specs::Form::link_text))]
fn add_link(out: &mut Vec<u8>, link: &Link) -> Result<(), AllocError>
    ensures { OnOk result (out.new.items ≡ out.old.items ++ link_text link.now) }
{
    match link {
        Link::Empty => out.extend_from_slice(b"empty"),
        Link::Constant(number) => {
            out.extend_from_slice(b"constant\t")?;
            add_integer(out, *number)
        }
        Link::Real(text) => {
            out.extend_from_slice(b"real\t")?;
            add_text(out, text.as_slice())
        }
        Link::Device(text) => {
            out.extend_from_slice(b"device\t")?;
            add_text(out, text.as_slice())
        }
        Link::Database(target, flags) => add_database(out, target, *flags),
    }
}

/// Appends where a link leads.
#[tactic(auto, unfolding(crate::specs::Form::lead_text))]
fn add_lead(out: &mut Vec<u8>, lead: &Lead) -> Result<(), AllocError>
    ensures { OnOk result (out.new.items ≡ out.old.items ++ lead_text lead.now) }
{
    match lead {
        Lead::Nowhere => out.extend_from_slice(b"nowhere"),
        Lead::OwnDevice => out.extend_from_slice(b"own"),
        Lead::Field(address) => {
            out.extend_from_slice(b"to\t")?;
            add_record(out, address.number)?;
            out.push(b'\t')?;
            add_field(out, address.field)
        }
    }
}

/// Appends a link and where it leads.
pub(crate) fn add_link_field(out: &mut Vec<u8>, field: &LinkField) -> Result<(), AllocError>
    ensures { OnOk result (out.new.items ≡ out.old.items ++ link_field_text field.now) }
{
    add_link(out, &field.link)?;
    out.push(b'\t')?;
    add_lead(out, &field.lead)
}

/// Reads the name of a field.
#[tactic(auto, unfolding(crate::specs::Parts::field_at))]
pub(crate) fn field_at(bytes: &[u8]) -> Option<(FieldNo, &[u8])>
    ensures { Gives (λ x. (x.0, x.1.now)) result (field_at bytes.now) }
{
    let (word, rest) = split(bytes);
    let field = field_of(word)?;
    Some((field, rest))
}

/// Reads a database link after its first word.
#[tactic(auto, unfolding(crate::specs::Parts::database_at))]
fn database_at(bytes: &[u8]) -> Option<(Link, &[u8])>
    ensures { Gives (λ x. (x.0, x.1.now)) result (database_at bytes.now) }
{
    let (record_name, rest) = text_at(bytes);
    let (field, rest) = text_at(rest);
    let (processed, rest) = split(rest);
    let (word, rest) = split(rest);
    let mode = mode_of(word)?;
    let target = Target { record_name, field };
    let flags = Flags {
        process_passive: is_word(processed, b"PP"),
        mode,
    };
    Some((Link::Database(target, flags), rest))
}

#[tactic(auto, unfolding(crate::specs::Parts::constant_at))]
fn constant_at(bytes: &[u8]) -> Option<(Link, &[u8])>
    ensures { Gives (λ x. (x.0, x.1.now)) result (constant_at bytes.now) }
{
    let Some((number, rest)) = integer_at(bytes) else {
        return None;
    };
    Some((Link::Constant(number), rest))
}

/// Reads a link.
#[tactic(auto, unfolding(crate::specs::Parts::link_at))]
fn link_at(bytes: &[u8]) -> Option<(Link, &[u8])>
    ensures { Gives (λ x. (x.0, x.1.now)) result (link_at bytes.now) }
{
    let (word, rest) = split(bytes);
    if is_word(word, b"empty") {
        return Some((Link::Empty, rest));
    }
    if is_word(word, b"constant") {
        return constant_at(rest);
    }
    if is_word(word, b"real") {
        let (text, rest) = text_at(rest);
        return Some((Link::Real(text), rest));
    }
    if is_word(word, b"device") {
        let (text, rest) = text_at(rest);
        return Some((Link::Device(text), rest));
    }
    database_at(rest)
}

#[tactic(auto, unfolding(crate::specs::Parts::address_at))]
fn address_at(bytes: &[u8]) -> Option<(Lead, &[u8])>
    ensures { Gives (λ x. (x.0, x.1.now)) result (address_at bytes.now) }
{
    let Some((number, rest)) = record_at(bytes) else {
        return None;
    };
    let Some((field, rest)) = field_at(rest) else {
        return None;
    };
    Some((Lead::Field(FieldAddress { number, field }), rest))
}

/// Reads where a link leads.
#[tactic(auto, unfolding(crate::specs::Parts::lead_at))]
fn lead_at(bytes: &[u8]) -> Option<(Lead, &[u8])>
    ensures { Gives (λ x. (x.0, x.1.now)) result (lead_at bytes.now) }
{
    let (word, rest) = split(bytes);
    if is_word(word, b"nowhere") {
        return Some((Lead::Nowhere, rest));
    }
    if is_word(word, b"own") {
        return Some((Lead::OwnDevice, rest));
    }
    address_at(rest)
}

/// Reads a link and where it leads.
#[tactic(auto, unfolding(crate::specs::Parts::link_field_at))]
pub(crate) fn link_field_at(bytes: &[u8]) -> Option<(LinkField, &[u8])>
    ensures { Gives (λ x. (x.0, x.1.now)) result (link_field_at bytes.now) }
{
    let Some((link, rest)) = link_at(bytes) else {
        return None;
    };
    let Some((lead, rest)) = lead_at(rest) else {
        return None;
    };
    Some((LinkField { link, lead }, rest))
}
