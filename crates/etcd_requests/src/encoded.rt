//! Bytes, keys and numbers as JSON values.
ghost use Rattle.std.specs.Prelude.{◌≡◌, IfOk, decimal, string_bytes};
ghost use Rattle.serde_json.specs.View.{view};
ghost use Rattle.etcd_requests.specs.Texts.{base64, bytes_data, end_data, key_data, long_data};

use crate::key::{Key, blocks_end, key_text};
use base64::engine::general_purpose::STANDARD;
use serde_json::Value;
use std::alloc::{AllocError, Global};

/// The bytes in base64.
pub(crate) fn bytes_value(alloc: Global, bytes: &[u8]) -> Result<Value, AllocError>
    ensures { IfOk result (λ v. view v ≡ bytes_data bytes.now) }
{
    Ok(Value::String(base64(alloc, bytes)?))
}

fn base64(alloc: Global, bytes: &[u8]) -> Result<String, AllocError>
    ensures { IfOk result (λ s. string_bytes s ≡ base64 bytes.now) }
{
    STANDARD.encode(alloc, bytes)
}

/// The key in base64.
pub(crate) fn key_value(alloc: Global, prefix: &str, key: Key) -> Result<Value, AllocError>
    ensures { IfOk result (λ v. view v ≡ key_data prefix.now key) }
{
    let text = key_text(alloc, prefix, key)?;
    bytes_value(alloc, text.as_bytes())
}

/// What stands behind an epoch's blocks, in base64.
pub(crate) fn end_value(alloc: Global, prefix: &str, epoch: u32) -> Result<Value, AllocError>
    ensures { IfOk result (λ v. view v ≡ end_data prefix.now epoch) }
{
    let text = blocks_end(alloc, prefix, epoch)?;
    bytes_value(alloc, text.as_bytes())
}

/// A number of 64 bits, as a text.
pub(crate) fn long_value(alloc: Global, number: u64) -> Result<Value, AllocError>
    ensures { IfOk result (λ v. view v ≡ long_data number) }
{
    Ok(Value::String(decimal(alloc, number)?))
}

/// A number's digits.
pub(crate) fn decimal(alloc: Global, number: u64) -> Result<String, AllocError>
    ensures { IfOk result (λ s. string_bytes s ≡ decimal number) }
{
    format!(in alloc; "{number}")
}
