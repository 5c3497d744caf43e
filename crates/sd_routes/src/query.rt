//! The query of a request.
ghost use Rattle.std.specs.Prelude.{◌≡◌, ◌≤◌, IfOk, IfSome, option_copied};
ghost use Rattle.sd_routes.specs.Queries.{flag_of, number_of, value_in, value_of};
ghost use Rattle.sd_routes.specs.Gives.{Gives};

use crate::decimal::decimal;
use crate::request_error::RequestError;
use form_urlencoded::parse;
use lists::Text;
use std::alloc::{AllocError, Global};

/// A flag of a query, decoded: the first of this name counts, and one that is left out is the default. Other names are ignored.
pub(crate) fn flag_of(
    alloc: Global,
    query: Option<&str>,
    name: &str,
    default: bool,
) -> Result<bool, RequestError>
    ensures { Gives result (flag_of name.now default (option_copied query.entry)) }
{
    let Some(value) = value_of(alloc, query, name)? else {
        return Ok(default);
    };
    match value.as_str() {
        "true" => Ok(true),
        "false" => Ok(false),
        _ => Err(RequestError::Shape),
    }
}

/// The number that the first value of a name writes in decimal, where it is at most this.
pub(crate) fn number_of(
    alloc: Global,
    query: Option<&str>,
    name: &str,
    most: u64,
) -> Result<Option<u64>, AllocError>
    ensures number { IfOk result (λ found. found ≡ number_of most name.now (option_copied query.entry)) }
    ensures most { IfOk result (λ found. IfSome found (λ n. n ≤ most)) }
{
    match value_of(alloc, query, name)? {
        Some(digits) => Ok(decimal(digits.as_str().as_bytes(), most)),
        None => Ok(None),
    }
}

/// The first value of a name in a query, decoded. Other names are ignored.
pub(crate) fn value_of(
    alloc: Global,
    query: Option<&str>,
    name: &str,
) -> Result<Option<Text>, AllocError>
    ensures { IfOk result (λ found. found ≡ value_of name.now (option_copied query.entry)) }
{
    match query {
        Some(query) => value_in(alloc, query.as_bytes(), name),
        None => Ok(None),
    }
}

fn value_in(alloc: Global, query: &[u8], name: &str) -> Result<Option<Text>, AllocError>
    ensures { IfOk result (λ found. found ≡ value_in name.now query.now) }
{
    for pair in parse(alloc, query) {
        let (key, value) = pair?;
        if key.as_bytes() == name.as_bytes() {
            return Ok(Some(Text::from_string(value.into_owned(alloc)?)));
        }
    }
    Ok(None)
}
