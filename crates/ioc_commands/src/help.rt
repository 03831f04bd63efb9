//! The lines of `help`.
use crate::parts::cut_at;
use crate::table::FORMS;
use crate::verb::Dialect;
use std::fmt;

/// The commands that a speaker has, a line each.
///
/// ```rust
/// println!(rt; "{}", Help(Dialect::Console))?;
/// ```
#[derive(Clone, Copy)]
pub struct Help(pub Dialect);

/// The first words of the commands that a speaker has, with commas between them.
#[derive(Clone, Copy)]
pub struct Verbs(pub Dialect);

// What stands behind a form, before what it does.
const COLUMN: &str = "                    ";

// Writes a form and what it does, in columns.
fn write_row<W: fmt::Write>(f: &mut fmt::Formatter<W>, line: &str, about: &str) -> fmt::Result {
    f.write_str(line)?;
    f.write_str(COLUMN.get(line.len()..).unwrap_or(" "))?;
    f.write_str(about)
}

impl fmt::Display for Help {
    fn fmt<W: fmt::Write>(&self, f: &mut fmt::Formatter<W>) -> fmt::Result {
        let is_user = self.0 != Dialect::Script;
        for form in FORMS.iter().filter(|form| self.0.knows(form.verb)) {
            write_row(f, form.line, form.about)?;
            if is_user && !form.shell.is_empty() {
                write!(f, " ({})", form.shell)?;
            }
            f.write_str("\n")?;
        }
        write_row(f, "# TEXT", "a comment\n")?;
        if is_user {
            f.write_str("REC alone is REC.VAL in get, put, notify, dbgf and dbpf.\n")?;
        }
        Ok(())
    }
}

impl fmt::Display for Verbs {
    fn fmt<W: fmt::Write>(&self, f: &mut fmt::Formatter<W>) -> fmt::Result {
        let mut last = b"".as_slice();
        for form in FORMS.iter().filter(|form| self.0.knows(form.verb)) {
            let verb = cut_at(form.line.as_bytes(), b' ').0;
            if verb != last {
                if !last.is_empty() {
                    f.write_str(", ")?;
                }
                f.write_str(form.line.get(..verb.len()).unwrap_or(""))?;
            }
            last = verb;
        }
        Ok(())
    }
}
