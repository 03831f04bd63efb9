//! Replacement of macros in a line.
use crate::closing::{closer_of, find_sign, quote_behind};
use crate::findings::joined;
use crate::line::{Line, column_behind};
use crate::macros::{Definition, Macros, Value};
use ioc_dblex::macros::is_macro_name;
use std::alloc::{AllocError, Global};

/// How deep macros may lie within one another.
const MOST_LEVELS: u32 = 32;

/// A mistake in a line.
#[derive(Drop)]
pub struct Fault {
    /// Where it is.
    pub column: u32,
    /// What it is and what to do.
    pub text: Vec<u8>,
}

/// A part of a line, or of a macro's value.
#[derive(Clone, Copy)]
struct Part<'a> {
    text: &'a [u8],
    /// The column of the first byte, or of all bytes of a value.
    column: u32,
    is_value: bool,
    /// The column from which the replaced text is to come, if it isn't its own: that of the macro
    /// use around it.
    around: Option<u32>,
}

impl<'a> Part<'a> {
    /// Returns the column of a byte.
    fn column(&self, at: usize) -> u32 {
        if self.is_value {
            self.column
        } else {
            column_behind(self.column, at)
        }
    }

    /// Returns the column from which what replaces a byte is to come.
    fn shown(&self, at: usize) -> u32 {
        self.around.unwrap_or(self.column(at))
    }

    /// Returns the part from the first byte up to the second one, which lies in a macro use at this
    /// column.
    fn between(&self, from: usize, to: usize, shown: u32) -> Part<'a> {
        Part {
            text: self.text.get(from..to).unwrap_or(&[]),
            column: self.column(from),
            is_value: self.is_value,
            around: Some(shown),
        }
    }

    /// Returns the part without the sign at its front.
    fn behind_sign(&self) -> Part<'a> {
        self.between(1, self.text.len(), self.shown(0))
    }

    /// Splits the part at the first of these signs that is outside macro uses. The sign begins the
    /// second part.
    fn split(&self, alloc: Global, signs: &[u8]) -> Result<(Part<'a>, Part<'a>), AllocError> {
        let length = self.text.len();
        let at = find_sign(alloc, signs, self.text)?.unwrap_or(length);
        let shown = self.shown(0);
        Ok((self.between(0, at, shown), self.between(at, length, shown)))
    }
}

/// Returns whether a byte stands for itself.
fn is_plain_byte(byte: u8) -> bool {
    !matches!(byte, b'$' | b'\\' | b'"' | b'\'')
}

/// Replaces macros, line by line.
#[derive(Drop)]
pub struct Expander {
    alloc: Global,
    /// The definitions that hold.
    pub macros: Macros,
    /// What is wrong with the macros of the last line.
    pub faults: Vec<Fault>,
    /// Whether the file is loaded alone. A backslash before a macro has no meaning then.
    pub is_alone: bool,
    /// Whether macros of the line lie too deep. No more of them is replaced then.
    is_too_deep: bool,
    /// How many bytes lines may still have. A use of a macro counts as one.
    left: u64,
}

impl Expander {
    /// Begins with no macros. All lines may have this many bytes together.
    pub fn new(alloc: Global, most_bytes: u64) -> Self {
        Expander {
            alloc,
            macros: Macros::new(alloc),
            faults: Vec::new(alloc),
            is_alone: false,
            is_too_deep: false,
            left: most_bytes,
        }
    }

    /// Returns whether lines have as many bytes as they may.
    pub fn is_spent(&self) -> bool {
        self.left == 0
    }

    /// Appends a line's text with its macros replaced.
    ///
    /// # Errors
    ///
    /// [`AllocError`] if allocation fails.
    pub fn expand_line(&mut self, text: &[u8], line: &mut Line) -> Result<(), AllocError> {
        let part = Part {
            text,
            column: 1,
            is_value: false,
            around: None,
        };
        self.is_too_deep = false;
        self.expand(part, MOST_LEVELS, line)
    }

    /// Notes a mistake.
    fn fail(&mut self, column: u32, parts: &[&[u8]]) -> Result<(), AllocError> {
        let text = joined(self.alloc, parts)?;
        self.faults.push(Fault { column, text })?;
        Ok(())
    }

    /// Notes that a macro lies too deep.
    fn fail_depth(&mut self, column: u32) -> Result<(), AllocError> {
        self.is_too_deep = true;
        let text = b"macros lie more than 32 deep; use fewer within one another";
        self.fail(column, &[text])
    }

    /// Appends bytes as [`Line::push`] does, unless lines have as many as they may.
    fn add(
        &mut self,
        line: &mut Line,
        bytes: &[u8],
        column: u32,
        is_fixed: bool,
    ) -> Result<(), AllocError> {
        let length = u64::try_from(bytes.len()).unwrap_or(u64::MAX);
        let is_whole = length <= self.left;
        self.left = self.left.saturating_sub(length);
        if length == 0 || !is_whole {
            return Ok(());
        }
        line.push(bytes, column, is_fixed)
    }

    /// Appends the bytes of a part from the first one up to the second one.
    fn add_part(
        &mut self,
        line: &mut Line,
        part: Part,
        from: usize,
        to: usize,
    ) -> Result<(), AllocError> {
        let bytes = part.text.get(from..to).unwrap_or(&[]);
        self.add(line, bytes, part.shown(from), part.around.is_some())
    }

    /// Appends a part of a line with its macros replaced. Outside the line's own text quotes and
    /// backslashes are dropped.
    #[cycle(expanding)]
    fn expand(&mut self, part: Part, levels: u32, line: &mut Line) -> Result<(), AllocError> {
        let is_own = part.around.is_none();
        let mut quote = None;
        // Where the bytes begin that aren't appended yet, and the next one that is looked at.
        let (mut begun, mut next) = (0, 0);
        for (at, byte) in part.text.iter().enumerate() {
            if at < next || is_plain_byte(*byte) {
                continue;
            }
            let behind = at.saturating_add(1);
            match part.text.get(at..).unwrap_or(&[]) {
                [b'$', b'(' | b'{', ..] if quote != Some(b'\'') => {
                    self.add_part(line, part, begun, at)?;
                    next = self.expand_use(part, at, levels, line)?;
                    begun = next;
                }
                [b'\\', escaped, ..] if !(self.is_alone && is_own && *escaped == b'$') => {
                    next = behind.saturating_add(1);
                    if !is_own {
                        self.add_part(line, part, begun, at)?;
                        begun = behind;
                    }
                }
                _ => {
                    let (is_quote, open) = quote_behind(quote, *byte);
                    quote = open;
                    if is_quote && !is_own {
                        self.add_part(line, part, begun, at)?;
                        begun = behind;
                    }
                }
            }
        }
        self.add_part(line, part, begun, part.text.len())
    }

    /// Returns a part of a line with its macros replaced.
    #[cycle(expanding)]
    fn expanded(&mut self, part: Part, levels: u32) -> Result<Vec<u8>, AllocError> {
        if part.text.iter().all(|byte| is_plain_byte(*byte)) {
            return part.text.to_vec(self.alloc);
        }
        let mut line = Line::new(self.alloc);
        self.expand(part, levels, &mut line)?;
        Ok(line.bytes)
    }

    /// Appends what stands for the macro use at a byte of a part. Returns the place behind it.
    #[cycle(expanding)]
    fn expand_use(
        &mut self,
        part: Part,
        at: usize,
        levels: u32,
        line: &mut Line,
    ) -> Result<usize, AllocError> {
        let length = part.text.len();
        if self.left == 0 || self.is_too_deep {
            return Ok(length);
        }
        self.left = self.left.saturating_sub(1);
        let column = part.column(at);
        let inside = at.saturating_add(2);
        let bracket = part.text.get(inside.saturating_sub(1)).copied();
        let closer = closer_of(bracket.unwrap_or(b'('));
        let inner = part.between(inside, length, part.shown(at));
        let Some(count) = find_sign(self.alloc, &[closer], inner.text)? else {
            self.fail(
                column,
                &[
                    b"the macro isn't closed; put '",
                    &[closer],
                    b"' behind its name",
                ],
            )?;
            self.add_part(line, part, at, length)?;
            return Ok(length);
        };
        if levels == 0 {
            self.fail_depth(column)?;
        } else {
            let used = inner.between(0, count, part.shown(at));
            self.replace_use(used, column, levels - 1, line)?;
        }
        Ok(inside.saturating_add(count).saturating_add(1))
    }

    /// Appends what stands for the macro use that has this between its brackets.
    #[cycle(expanding)]
    fn replace_use(
        &mut self,
        used: Part,
        column: u32,
        levels: u32,
        line: &mut Line,
    ) -> Result<(), AllocError> {
        let (name, behind) = used.split(self.alloc, b"=,")?;
        let name = self.expanded(name, levels)?;
        let mut default = None;
        let mut scoped = behind;
        if behind.text.first().copied() == Some(b'=') {
            let (value, others) = behind.behind_sign().split(self.alloc, b",")?;
            default = Some(value);
            scoped = others;
        }
        let count = self.macros.count();
        self.define_scoped(scoped, levels)?;
        let shown = used.shown(0);
        let wanted = Wanted {
            name: name.as_slice(),
            default,
            column,
            shown,
        };
        self.insert(wanted, levels, line)?;
        self.macros.keep(count);
        Ok(())
    }

    /// Adds the definitions of `,NAME=VALUE,..` in a macro use.
    #[cycle(expanding)]
    fn define_scoped(&mut self, part: Part, levels: u32) -> Result<(), AllocError> {
        let mut rest = part;
        for _ in 0..part.text.len() {
            if rest.text.is_empty() {
                break;
            }
            let (definition, behind) = rest.behind_sign().split(self.alloc, b",")?;
            let (name, value) = definition.split(self.alloc, b"=")?;
            let name = self.expanded(name, levels)?;
            let value = self.expanded(value.behind_sign(), levels)?;
            self.macros.define(Definition { name, value })?;
            rest = behind;
        }
        Ok(())
    }

    /// Appends the value of a macro, or its default.
    #[cycle(expanding)]
    fn insert(&mut self, wanted: Wanted, levels: u32, line: &mut Line) -> Result<(), AllocError> {
        let Wanted {
            name,
            default,
            column,
            shown,
        } = wanted;
        if self.is_alone && !is_macro_name(name) {
            return self.keep_use(name, column, shown, line);
        }
        match self.macros.take_value(name) {
            Value::Text(text, number) => {
                let part = Part {
                    text: text.as_slice(),
                    column,
                    is_value: true,
                    around: Some(shown),
                };
                self.expand(part, levels, line)?;
                self.macros.give_back(text, number);
                Ok(())
            }
            Value::Open => self.fail(
                column,
                &[
                    b"macro ",
                    name,
                    b" has itself in its value; give it another value",
                ],
            ),
            Value::Undefined => match default {
                Some(part) => self.expand(part, levels, line),
                None => self.keep_use(name, column, shown, line),
            },
        }
    }

    /// Keeps the use of a macro that has no value.
    fn keep_use(
        &mut self,
        name: &[u8],
        column: u32,
        shown: u32,
        line: &mut Line,
    ) -> Result<(), AllocError> {
        let remedy = b"': a name has letters, digits and '_' alone; write another one";
        if self.is_alone && !is_macro_name(name) {
            self.fail(column, &[b"macro '", name, remedy])?;
        } else {
            let parts = [b"macro ", name, b" has no value: give ", name, b"=.."];
            self.fail(column, &parts)?;
        }
        self.add(line, b"$(", shown, true)?;
        self.add(line, name, shown, true)?;
        self.add(line, b")", shown, true)
    }
}

/// A macro whose value is to be appended.
#[derive(Clone, Copy)]
struct Wanted<'a> {
    name: &'a [u8],
    default: Option<Part<'a>>,
    /// Where the macro is used.
    column: u32,
    /// The column from which the value is to come.
    shown: u32,
}
