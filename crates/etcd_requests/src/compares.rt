//! What is compared, as JSON values.
ghost use Rattle.std.specs.Prelude.{◌≡◌, IfOk};
ghost use Rattle.serde_json.specs.View.{view};
ghost use Rattle.etcd_requests.specs.declared.key.Key.TheVariants.{Epoch, Leader};
ghost use Rattle.etcd_requests.specs.Requests.{goes_on, leads};
ghost use Rattle.etcd_requests.specs.Texts.{compare_data};
ghost use Rattle.etcd_requests.specs.Transactions.{HasValue, WasCreated};

use crate::encoded::{bytes_value, decimal, key_value, long_value};
use crate::key::Key;
use serde_json::{Value, json};
use std::alloc::{AllocError, Global};

/// The key has this value.
fn has_value(alloc: Global, prefix: &str, key: Key, value: &[u8]) -> Result<Value, AllocError>
    ensures { IfOk result (λ v. view v ≡ compare_data prefix.now (HasValue key value.now)) }
{
    let key = key_value(alloc, prefix, key)?;
    let value = bytes_value(alloc, value)?;
    json!(in alloc; {"key": key, "target": "VALUE", "value": value})
}

/// The key was created at this revision. At 0: it is absent.
pub(crate) fn was_created(
    alloc: Global,
    prefix: &str,
    key: Key,
    revision: u64,
) -> Result<Value, AllocError>
    ensures { IfOk result (λ v. view v ≡ compare_data prefix.now (WasCreated key revision)) }
{
    let key = key_value(alloc, prefix, key)?;
    let revision = long_value(alloc, revision)?;
    json!(in alloc; {"create_revision": revision, "key": key, "target": "CREATE"})
}

/// This term leads.
pub(crate) fn leads(alloc: Global, prefix: &str, term: &str) -> Result<Value, AllocError>
    ensures { IfOk result (λ v. view v ≡ compare_data prefix.now (leads term.now)) }
{
    has_value(alloc, prefix, Key::Leader, term.as_bytes())
}

/// This epoch goes on; before the first there is none.
pub(crate) fn goes_on(alloc: Global, prefix: &str, epoch: u32) -> Result<Value, AllocError>
    ensures { IfOk result (λ v. view v ≡ compare_data prefix.now (goes_on epoch)) }
{
    if epoch == 0 {
        return was_created(alloc, prefix, Key::Epoch, 0);
    }
    let number = decimal(alloc, epoch as u64)?;
    has_value(alloc, prefix, Key::Epoch, number.as_bytes())
}
