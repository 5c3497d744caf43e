//! Texts in quotation marks.
use std::fmt;
use std::fmt::{Display, Formatter};

/// Shows a text in quotation marks. Quotation marks and backslashes in it have a backslash before them, and control characters are
/// shown as spaces.
#[derive(Clone, Copy)]
pub struct Quoted<'a>(pub &'a str);

impl<'a> Display for Quoted<'a> {
    fn fmt<W: fmt::Write>(&self, f: &mut Formatter<W>) -> fmt::Result {
        f.write_str("\"")?;
        for c in self.0.chars() {
            write_char(f, c)?;
        }
        f.write_str("\"")
    }
}

fn write_char<W: fmt::Write>(f: &mut Formatter<W>, c: char) -> fmt::Result {
    match c {
        '"' => f.write_str("\\\""),
        '\\' => f.write_str("\\\\"),
        c if c.is_control() => f.write_str(" "),
        c => f.write_char(c),
    }
}
