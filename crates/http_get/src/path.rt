//! The path of a scrape, with what may not stand in a path escaped.
ghost use Rattle.std.specs.Prelude.{◌≡◌, IfOk, string_bytes};
ghost use Rattle.http_get.specs.Paths.{slash_before as slash_lacking, escaped_path};

use percent_encoding::{AsciiSet, NON_ALPHANUMERIC, ascii_set, utf8_percent_encode};
use std::alloc::{AllocError, Global};

/// The ASCII bytes that are escaped in a path.
const ESCAPED: AsciiSet = ascii_set!(
    NON_ALPHANUMERIC
        .remove(b'-')
        .remove(b'.')
        .remove(b'_')
        .remove(b'~')
        .remove(b'/')
        .remove(b':')
        .remove(b'@')
        .remove(b'!')
        .remove(b'$')
        .remove(b'&')
        .remove(b'\'')
        .remove(b'(')
        .remove(b')')
        .remove(b'*')
        .remove(b'+')
        .remove(b',')
        .remove(b';')
        .remove(b'=')
);

/// A metrics path as a path: it begins with a slash, and what may not stand in a path is escaped.
pub(crate) fn path_of(alloc: Global, text: &str) -> Result<String, AllocError>
    ensures { IfOk result (λ p. string_bytes p ≡ escaped_path text.now) }
{
    let mut path = String::from_str(alloc, slash_before(text))?;
    utf8_percent_encode(text, ESCAPED).append_to(&mut path)?;
    Ok(path)
}

/// The slash that a path lacks in front.
pub(crate) fn slash_before(text: &str) -> &'static str
    ensures { result.now ≡ slash_lacking text.now }
{
    match text.as_bytes() {
        [b'/', ..] => "",
        _ => "/",
    }
}
