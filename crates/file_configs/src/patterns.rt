//! The paths and patterns of a source's URL.
ghost use Rattle.std.specs.Prelude.{◌≡◌, IfOk, option_map};
ghost use Rattle.std.specs.Str.Lines.{lines};
ghost use Rattle.file_configs.specs.Patterns.{behind_prefix, patterns_in};

use lists::{List, Text};
use std::alloc::{AllocError, Global};

/// The paths and patterns of a source's URL, where it is one of files: the lines behind `file:`.
pub fn patterns_of(alloc: Global, url: &str) -> Result<Option<List<Text>>, AllocError>
    ensures { IfOk result (λ o. o ≡ patterns_in url.now) }
{
    match behind("file:", url) {
        Some(text) => Ok(Some(lines_of(alloc, text)?)),
        None => Ok(None),
    }
}

/// What stands behind the prefix, where the text begins with it.
fn behind<'a>(prefix: &str, text: &'a str) -> Option<&'a str>
    ensures { option_map (λ s. s.now) result ≡ behind_prefix prefix.now text.now }
{
    text.strip_prefix(prefix)
}

fn lines_of(alloc: Global, text: &str) -> Result<List<Text>, AllocError>
    ensures { IfOk result (λ l. l ≡ lines text.now) }
{
    let mut all = List::new(alloc);
    for line in text.lines() {
        all.push(Text::from_str(alloc, line)?)?;
    }
    Ok(all)
}
