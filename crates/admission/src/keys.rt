//! The keys that a file of tokens has.
use crate::key::Key;
use lists::{List, Text};
use std::alloc::{AllocError, Global};

/// The keys that a text has: in each line a token, or the name of the collector that alone may show it, a space and the token. Empty lines
/// and those that begin with `#` say nothing. None where a line has more words, or no line has a token.
pub fn read_keys(alloc: Global, text: &str) -> Result<Option<List<Key>>, AllocError> {
    let mut keys = List::new(alloc);
    for line in text.lines() {
        let line = line.trim();
        if !line.is_empty() && !line.starts_with('#') {
            match key_in(alloc, line)? {
                Some(key) => keys.push(key)?,
                None => return Ok(None),
            }
        }
    }
    if keys.is_empty() {
        return Ok(None);
    }
    Ok(Some(keys))
}

/// The key of a line.
fn key_in(alloc: Global, line: &str) -> Result<Option<Key>, AllocError> {
    match line.split_once(' ') {
        None => Ok(Some(Key {
            collector: None,
            token: Text::from_str(alloc, line)?,
        })),
        Some((collector, token)) => {
            let token = token.trim();
            if token.contains(' ') {
                return Ok(None);
            }
            Ok(Some(Key {
                collector: Some(Text::from_str(alloc, collector)?),
                token: Text::from_str(alloc, token)?,
            }))
        }
    }
}
