//! The canonical spelling of each link.

ghost use Rattle.std.specs.Prelude.{◌≡◌};
ghost use Rattle.ioc_links.specs.Grammar.{mode_word, printed_database, printed, LinksAgain};

use crate::link::{Flags, Link, MAX_LINK_BYTES, Mode, Target};
use ioc_values::Short;
use itoa::Buffer;

/// Returns the word for the mode.
fn mode_word(mode: Mode) -> &'static [u8]
    ensures { result.now ≡ mode_word mode }
{
    match mode {
        Mode::Nms => b"NMS",
        Mode::Ms => b"MS",
        Mode::Msi => b"MSI",
        Mode::Mss => b"MSS",
    }
}

/// Returns `NAME.FIELD`, PP or NPP, and the mode, separated by one space each.
fn print_database(target: &Target, flags: Flags) -> Short<MAX_LINK_BYTES>
    ensures { result ≡ printed_database target.now flags }
{
    let mut text = Short::new();
    text.extend(target.record_name.as_slice());
    text.push(b'.');
    text.extend(target.field.as_slice());
    let processed: &[u8] = if flags.process_passive {
        b" PP "
    } else {
        b" NPP "
    };
    text.extend(processed);
    text.extend(mode_word(flags.mode));
    text
}

/// Returns the canonical spelling of the link: nothing, a whole constant in decimal, a real one as it
/// was written, `@` and the text, or `NAME.FIELD` with both words.
pub fn print(link: &Link) -> Short<MAX_LINK_BYTES>
    ensures { result ≡ printed link.now }
{
    let mut text = Short::new();
    match link {
        Link::Empty => {}
        Link::Constant(n) => {
            let mut buffer = Buffer::new();
            text.extend(buffer.format(*n).as_bytes());
        }
        Link::Real(number) => text.extend(number.as_slice()),
        Link::Device(device) => {
            text.push(b'@');
            text.extend(device.as_slice());
        }
        Link::Database(target, flags) => return print_database(target, *flags),
    }
    text
}

/// Each link that [`parse`](crate::parsing::parse) returns reads back from its canonical spelling
/// as the same link, in a field of the same kind.
pub fn printed_is_read()
    ensures { LinksAgain }
{}
