//! Writes whole texts.
ghost use Rattle.std.specs.Prelude.{OnOk, OnErr};
ghost use Rattle.std.specs.Io.KnownBytes.{Appends};
ghost use Rattle.ioc_main.specs.Written.{WritesPart};

use crate::fault::WriteFault;
use std::io::Write;

/// Writes all of a text, however few bytes the writer takes per call. A writer that takes no byte,
/// or returns an error, has failed.
///
/// # Errors
///
/// [`WriteFault`] if the writer fails before it has taken all.
pub fn write_text<W: Write>(out: &mut W, text: &[u8]) -> Result<(), WriteFault>
    ensures ok { OnOk result (Appends (W.contents out.old) (W.contents out.new) text.now) }
    ensures err { OnErr result (WritesPart (W.contents out.old) text.now (W.contents out.new)) }
{
    let mut rest = text;
    while !rest.is_empty() {
        match out.write(rest) {
            Ok(0) => return Err(WriteFault),
            Ok(n) => rest = rest.split_at(n).1,
            Err(_) => return Err(WriteFault),
        }
    }
    Ok(())
}
