//! Reading links from their texts.

ghost use Rattle.std.specs.Prelude.{◌≡◌, ◌≤◌, length, ok_or};
ghost use Rattle.ioc_links.specs.Words.{words};
ghost use Rattle.ioc_links.specs.Grammar.{device_of, database_of, by_first, real_of, solid_link, link_of};

use crate::grammar::{is_float, named};
use crate::link::{Link, LinkKind, MAX_LINK_BYTES};
use crate::words::{flags_of, next_word};
use ioc_values::number::{is_number, signed};
use ioc_values::trim::{skip_front, trim};
use ioc_values::{IocError, Short};

/// Returns the device link with the text after the `@`, if the field can hold one.
fn device_of(kind: LinkKind, text: &[u8]) -> Option<Link>
    requires { length text.now ≤ 119 }
    ensures { result ≡ device_of kind text.now }
{
    match (kind, text) {
        (LinkKind::NoDevice, _) => None,
        (LinkKind::WithDevice, []) => None,
        (LinkKind::WithDevice, [_, ..]) => Some(Link::Device(Short::from_slice(text)?)),
    }
}

/// Returns the database link that a target and the words after it spell.
fn database_of(text: &[u8]) -> Option<Link>
    ensures { result ≡ database_of (words text.now) }
{
    let (word, rest) = next_word(text)?;
    let target = named(word)?;
    let flags = flags_of(rest)?;
    Some(Link::Database(target, flags))
}

/// Returns the link of a text that isn't a number and has no blanks at its ends.
#[tactic(auto, unfolding(crate::specs::Grammar::by_first))]
fn by_first(kind: LinkKind, text: &[u8]) -> Option<Link>
    requires { length text.now ≤ 120 }
    ensures { result ≡ by_first kind text.now }
{
    match text {
        [] => Some(Link::Empty),
        [b'@', rest @ ..] => device_of(kind, skip_front(rest, false)),
        [b'{', ..] => None,
        [_, ..] => database_of(text),
    }
}

/// Returns the constant of a decimal number with a point or an exponent, if it isn't too long for a
/// value.
fn real_of(text: &[u8]) -> Option<Link>
    ensures { result ≡ real_of text.now }
{
    Short::from_slice(text).map(Link::Real)
}

/// Returns the link of a text without blanks at its ends.
#[tactic(auto, unfolding(crate::specs::Grammar::solid_link))]
fn solid_link(kind: LinkKind, text: &[u8]) -> Option<Link>
    requires { length text.now ≤ 120 }
    ensures { result ≡ solid_link kind text.now }
{
    if is_number(text) {
        return signed(text).map(Link::Constant);
    }
    if is_float(text) {
        return real_of(text);
    }
    by_first(kind, text)
}

/// Returns the link that the text spells. Spaces and tabs at both ends are ignored.
///
/// # Errors
///
/// [`IocError::BadLink`] if the text spells no link: it has more than 120 bytes, is a whole number
/// that doesn't fit 64 bits, or a number of more than 39 bytes with a point or an exponent, is a
/// device link with no text or in a field that can't hold one, is a JSON link (it begins with `{`),
/// or has an invalid name or an unknown word after the name (CA, CP and CPP are unknown).
pub fn parse(kind: LinkKind, text: &[u8]) -> Result<Link, IocError>
    ensures { result ≡ ok_or (link_of kind text.now) IocError.BadLink }
{
    if text.len() > MAX_LINK_BYTES {
        return Err(IocError::BadLink);
    }
    solid_link(kind, trim(text, true)).ok_or(IocError::BadLink)
}
