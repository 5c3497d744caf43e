//! The keys that a read finds.
ghost use Rattle.std.specs.Prelude.{◌≡◌, IfOk};
ghost use Rattle.serde_json.specs.View.{view};
ghost use Rattle.etcd_answers.specs.Answers.{base64_said, bytes_in, bytes_of, found_in, found_since};

use crate::numbers::long_in;
use base64::DecodeAllocError;
use base64::engine::general_purpose::STANDARD;
use json_values::FromJson;
use lists::List;
use serde_json::Value;
use std::alloc::{AllocError, Global};

/// A key that is there.
#[derive(Debug, Drop)]
pub struct Found {
    pub key: List<u8>,
    /// The revision at which it was created.
    pub created: u64,
    pub value: List<u8>,
}

impl FromJson for Found {
    ghost spelled = { found_in };

    fn read(alloc: Global, value: &Value) -> Result<Option<Found>, AllocError> {
        found_in(alloc, value)
    }
}

fn found_in(alloc: Global, pair: &Value) -> Result<Option<Found>, AllocError>
    ensures { IfOk result (λ o. o ≡ found_in (view pair.now)) }
{
    match long_in(pair, "create_revision") {
        Some(created) => found_since(alloc, pair, created),
        None => Ok(None),
    }
}

fn found_since(alloc: Global, pair: &Value, created: u64) -> Result<Option<Found>, AllocError>
    ensures { IfOk result (λ o. o ≡ found_since created (view pair.now)) }
{
    match bytes_in(alloc, pair, "key")? {
        Some(key) => match bytes_in(alloc, pair, "value")? {
            Some(value) => Ok(Some(Found {
                key,
                created,
                value,
            })),
            None => Ok(None),
        },
        None => Ok(None),
    }
}

/// The bytes of a member, which are none where it is absent.
fn bytes_in(alloc: Global, value: &Value, name: &str) -> Result<Option<List<u8>>, AllocError>
    ensures { IfOk result (λ o. o ≡ bytes_in name.now (view value.now)) }
{
    match value.get(name) {
        Some(member) => bytes_of(alloc, member),
        None => Ok(Some(List::new(alloc))),
    }
}

fn bytes_of(alloc: Global, value: &Value) -> Result<Option<List<u8>>, AllocError>
    ensures { IfOk result (λ o. o ≡ bytes_of (view value.now)) }
{
    match value.as_str() {
        Some(text) => decoded(alloc, text),
        None => Ok(None),
    }
}

/// The bytes that a text says in base64.
fn decoded(alloc: Global, text: &str) -> Result<Option<List<u8>>, AllocError>
    ensures { IfOk result (λ o. o ≡ base64_said text.now) }
{
    match STANDARD.decode(alloc, text.as_bytes()) {
        Ok(bytes) => Ok(Some(List::from_vec(bytes))),
        Err(DecodeAllocError::DecodeError(_)) => Ok(None),
        Err(DecodeAllocError::OutOfMemory) => Err(AllocError),
    }
}
