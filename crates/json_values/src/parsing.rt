//! Parsing JSON texts.
ghost use Rattle.std.specs.Prelude.{◌≡◌, IfOk, option_map};
ghost use Rattle.serde_json.specs.View.{view};
ghost use Rattle.json_values.specs.Texts.{json_of};

use serde_json::Value;
use std::alloc::{AllocError, Global};

/// The value that a JSON text (RFC 8259) says, if the bytes are one. At most 127 containers nest, and a number that is
/// too great for a float is none.
pub fn parse(alloc: Global, bytes: &[u8]) -> Result<Option<Value>, AllocError>
    ensures { IfOk result (λ o. option_map view o ≡ json_of bytes.now) }
{
    match Value::from_slice(alloc, bytes) {
        Ok(value) => Ok(Some(value)),
        Err(error) if error.is_memory() => Err(AllocError),
        Err(_) => Ok(None),
    }
}
