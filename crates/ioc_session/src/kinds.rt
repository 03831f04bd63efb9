//! What fields take, in words.
use ioc_fields::FieldKind;
use ioc_menus::choices;
use ioc_values::Range;
use std::fmt;

/// What a field of this kind takes.
#[derive(Clone, Copy)]
pub struct Taken(pub FieldKind);

// Returns the name of a range and its bounds.
fn range_words(range: Range) -> &'static str {
    match range {
        Range::Long => "Long, -2147483648 to 2147483647",
        Range::ULong => "ULong, 0 to 4294967295",
        Range::Short => "Short, -32768 to 32767",
        Range::UShort => "UShort, 0 to 65535",
        Range::UChar => "UChar, 0 to 255",
        Range::Enum => "Enum, 0 to 65535",
        Range::Int64 => "Int64, -9223372036854775808 to 9223372036854775807",
        Range::Zero => "only 0",
        Range::Bits => "0 to 32",
        Range::Digits => "0 to 15",
    }
}

// Writes the texts of a menu.
fn write_choices<W: fmt::Write>(f: &mut fmt::Formatter<W>, texts: &[&'static str]) -> fmt::Result {
    f.write_str("one of: ")?;
    let mut before = "";
    for text in texts {
        f.write_str(before)?;
        f.write_str(text)?;
        before = ", ";
    }
    Ok(())
}

impl fmt::Display for Taken {
    fn fmt<W: fmt::Write>(&self, f: &mut fmt::Formatter<W>) -> fmt::Result {
        match self.0 {
            FieldKind::Number(range) => f.write_str(range_words(range)),
            FieldKind::Double => f.write_str("Double, a decimal, nan or inf"),
            FieldKind::Text => f.write_str("a text"),
            FieldKind::Expression => f.write_str("an expression, which a database text alone sets"),
            FieldKind::Menu(menu) => write_choices(f, choices(menu)),
            FieldKind::State => f.write_str("the text of a state or its number"),
            FieldKind::Link(_) => f.write_str("a link"),
        }
    }
}
