//! URLs in quotation marks.
use std::fmt;
use std::fmt::{Display, Formatter};

/// Shows a URL in quotation marks, in one line. Quotation marks, backslashes and control characters in it are percent-encoded (RFC 3986, section 2.1),
/// as the line feeds between the paths of a source of files.
#[derive(Clone, Copy)]
pub struct QuotedUrl<'a>(pub &'a str);

impl<'a> Display for QuotedUrl<'a> {
    fn fmt<W: fmt::Write>(&self, f: &mut Formatter<W>) -> fmt::Result {
        f.write_str("\"")?;
        for c in self.0.chars() {
            write_char(f, c)?;
        }
        f.write_str("\"")
    }
}

fn write_char<W: fmt::Write>(f: &mut Formatter<W>, c: char) -> fmt::Result {
    match c {
        '"' => f.write_str("%22"),
        '\\' => f.write_str("%5C"),
        c if c.is_control() => write_control(f, u32::from(c)),
        c => f.write_char(c),
    }
}

/// A control character. Those that are not ASCII have two bytes in UTF-8, of which the second is their number.
fn write_control<W: fmt::Write>(f: &mut Formatter<W>, code: u32) -> fmt::Result {
    if code < 128 {
        write!(f, "%{code:02X}")
    } else {
        write!(f, "%C2%{code:02X}")
    }
}
