//! What the operations of a transaction find.
ghost use Rattle.std.specs.Prelude.{◌≡◌, IfOk};
ghost use Rattle.serde_json.specs.View.{view};
ghost use Rattle.etcd_answers.specs.Answers.{found_of, range_in, response_in};

use crate::found::Found;
use json_values::{FromJson, list_of};
use lists::List;
use serde_json::Value;
use std::alloc::{AllocError, Global};

/// The keys that an operation found. One that writes or removes finds none.
#[derive(Debug, Drop)]
pub struct Response {
    pub found: List<Found>,
}

impl FromJson for Response {
    ghost spelled = { response_in };

    fn read(alloc: Global, value: &Value) -> Result<Option<Response>, AllocError> {
        response_in(alloc, value)
    }
}

fn response_in(alloc: Global, response: &Value) -> Result<Option<Response>, AllocError>
    ensures { IfOk result (λ o. o ≡ response_in (view response.now)) }
{
    match found_of(alloc, response)? {
        Some(found) => Ok(Some(Response { found })),
        None => Ok(None),
    }
}

fn found_of(alloc: Global, response: &Value) -> Result<Option<List<Found>>, AllocError>
    ensures { IfOk result (λ o. o ≡ found_of (view response.now)) }
{
    if !response.is_object() {
        return Ok(None);
    }
    match response.get("response_range") {
        Some(range) => range_in(alloc, range),
        None => Ok(Some(List::new(alloc))),
    }
}

fn range_in(alloc: Global, range: &Value) -> Result<Option<List<Found>>, AllocError>
    ensures { IfOk result (λ o. o ≡ range_in (view range.now)) }
{
    if !range.is_object() {
        return Ok(None);
    }
    match range.get("kvs") {
        Some(pairs) => list_of(alloc, pairs),
        None => Ok(Some(List::new(alloc))),
    }
}
