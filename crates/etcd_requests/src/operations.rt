//! What is done, as JSON values.
ghost use Rattle.std.specs.Prelude.{◌≡◌, IfOk};
ghost use Rattle.serde_json.specs.View.{view};
ghost use Rattle.etcd_requests.specs.Texts.{operation_data};
ghost use Rattle.etcd_requests.specs.Transactions.{Get, GetFrom, GetKey, Put, PutUnder, RemoveFrom};

use crate::encoded::{bytes_value, end_value, key_value, long_value};
use crate::key::Key;
use serde_json::{Value, json};
use std::alloc::{AllocError, Global};

/// Writes a key.
pub(crate) fn put(alloc: Global, prefix: &str, key: Key, value: &[u8]) -> Result<Value, AllocError>
    ensures { IfOk result (λ v. view v ≡ operation_data prefix.now (Put key value.now)) }
{
    let key = key_value(alloc, prefix, key)?;
    let value = bytes_value(alloc, value)?;
    json!(in alloc; {"request_put": {"key": key, "value": value}})
}

/// Writes a key that is gone when a lease ends.
pub(crate) fn put_under(
    alloc: Global,
    prefix: &str,
    key: Key,
    value: &[u8],
    lease: u64,
) -> Result<Value, AllocError>
    ensures { IfOk result (λ v. view v ≡ operation_data prefix.now (PutUnder key value.now lease)) }
{
    let key = key_value(alloc, prefix, key)?;
    let value = bytes_value(alloc, value)?;
    let lease = long_value(alloc, lease)?;
    json!(in alloc; {"request_put": {"key": key, "lease": lease, "value": value}})
}

/// Reads a key.
pub(crate) fn get(alloc: Global, prefix: &str, key: Key) -> Result<Value, AllocError>
    ensures { IfOk result (λ v. view v ≡ operation_data prefix.now (Get key)) }
{
    let key = key_value(alloc, prefix, key)?;
    json!(in alloc; {"request_range": {"key": key}})
}

/// Reads a key without its value.
pub(crate) fn get_key(alloc: Global, prefix: &str, key: Key) -> Result<Value, AllocError>
    ensures { IfOk result (λ v. view v ≡ operation_data prefix.now (GetKey key)) }
{
    let key = key_value(alloc, prefix, key)?;
    json!(in alloc; {"request_range": {"key": key, "keys_only": true}})
}

/// Reads the blocks of an epoch from a number on, at most so many.
pub(crate) fn get_from(
    alloc: Global,
    prefix: &str,
    epoch: u32,
    number: u32,
    most: u64,
) -> Result<Value, AllocError>
    ensures { IfOk result (λ v. view v ≡ operation_data prefix.now (GetFrom epoch number most)) }
{
    let key = key_value(alloc, prefix, Key::Block(epoch, number))?;
    let end = end_value(alloc, prefix, epoch)?;
    let most = long_value(alloc, most)?;
    json!(in alloc; {"request_range": {"key": key, "limit": most, "range_end": end}})
}

/// Removes the blocks of an epoch from a number on.
pub(crate) fn remove_from(
    alloc: Global,
    prefix: &str,
    epoch: u32,
    number: u32,
) -> Result<Value, AllocError>
    ensures { IfOk result (λ v. view v ≡ operation_data prefix.now (RemoveFrom epoch number)) }
{
    let key = key_value(alloc, prefix, Key::Block(epoch, number))?;
    let end = end_value(alloc, prefix, epoch)?;
    json!(in alloc; {"request_delete_range": {"key": key, "range_end": end}})
}
