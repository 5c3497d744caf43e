//! What Prometheus calls a secret, masked.
ghost use Rattle.std.specs.Prelude.{◌≡◌, IfOk};
ghost use Rattle.serde_json.specs.View.{view, items_view, members_view};
ghost use Rattle.config_secrets.specs.Masked.{is_secret as is_secret_name, is_read as is_read_name, treatment_of as treatment_at, leaf as leaf_data, masked as masked_data, masked_items as masked_items_data, masked_members as masked_members_data};

use serde_json::{Map, Value};
use std::alloc::{AllocError, Global};
use std::default::Emptied;

/// What stands in the place of a secret.
const MASK: &str = "<secret>";

/// What becomes of a value.
#[derive(Clone, Copy, PartialEq, Eq)]
enum Treatment {
    /// It stays as it is.
    Kept,
    /// The secrets in it are masked.
    Searched,
    /// All in it is masked.
    Hidden,
}

/// The document of a configuration with the text `<secret>` in the place of each text, number, true and false of what Prometheus calls a
/// secret, at any depth (<https://prometheus.io/docs/prometheus/latest/configuration/configuration/>). What is read here stays as it is:
/// members of that name in `allocator`, in parameters, static groups and rules are no secrets.
pub fn without_secrets(alloc: Global, document: &Value) -> Result<Value, AllocError>
    ensures { IfOk result (λ v. view v ≡ masked_data Treatment.Searched (view document.now)) }
{
    masked(alloc, Treatment::Searched, document)
}

#[cycle(masked)]
fn masked(alloc: Global, how: Treatment, value: &Value) -> Result<Value, AllocError>
    ensures { IfOk result (λ v. view v ≡ masked_data how (view value.now)) }
{
    match value {
        Value::Null => Ok(Value::Null),
        Value::Bool(b) => leaf(alloc, how, Value::Bool(*b)),
        Value::Number(n) => leaf(alloc, how, Value::Number(*n)),
        Value::String(text) => leaf(alloc, how, Value::String(text.clone()?)),
        Value::Array(items) => Ok(Value::Array(masked_items(alloc, how, items)?)),
        Value::Object(members) => Ok(Value::Object(masked_members(alloc, how, members)?)),
    }
}

#[cycle(masked)]
fn masked_items(alloc: Global, how: Treatment, items: &Vec<Value>) -> Result<Vec<Value>, AllocError>
    ensures { IfOk result (λ v. items_view v.items ≡ masked_items_data how (items_view items.now.items)) }
{
    let mut others = Vec::with_capacity(alloc, items.len())?;
    for item in items {
        others.push(masked(alloc, how, item)?)?;
    }
    Ok(others)
}

#[cycle(masked)]
fn masked_members(
    alloc: Global,
    how: Treatment,
    members: &Map<String, Value>,
) -> Result<Map<String, Value>, AllocError>
    ensures { IfOk result (λ m. members_view m.entries ≡ masked_members_data how (members_view members.now.entries)) }
{
    let mut others = Map::emptied(members)?;
    for (key, member) in members.iter() {
        let name = key.clone()?;
        let treatment = treatment_of(how, key.as_str());
        drop(others.insert(name, masked(alloc, treatment, member)?)?);
    }
    Ok(others)
}

/// A value that has no others in it.
fn leaf(alloc: Global, how: Treatment, value: Value) -> Result<Value, AllocError>
    ensures { IfOk result (λ v. view v ≡ leaf_data how (view value)) }
{
    match how {
        Treatment::Hidden => Ok(Value::String(String::from_str(alloc, MASK)?)),
        Treatment::Kept | Treatment::Searched => Ok(value),
    }
}

/// What becomes of a member of what is treated so.
fn treatment_of(how: Treatment, name: &str) -> Treatment
    ensures { result ≡ treatment_at how name.now }
{
    match how {
        Treatment::Kept => Treatment::Kept,
        Treatment::Searched if is_secret(name) => Treatment::Hidden,
        Treatment::Searched if is_read(name) => Treatment::Kept,
        Treatment::Searched => Treatment::Searched,
        Treatment::Hidden => Treatment::Hidden,
    }
}

/// Whether a member of this name is a secret, or has nothing but secrets in it.
fn is_secret(name: &str) -> bool
    ensures { result ≡ is_secret_name name.now }
{
    match name {
        "password"
        | "credentials"
        | "client_secret"
        | "bearer_token"
        | "key"
        | "secret_key"
        | "proxy_connect_header"
        | "secrets" => true,
        _ => false,
    }
}

/// Whether all of a member of this name may be read here, whatever the names in it are.
fn is_read(name: &str) -> bool
    ensures { result ≡ is_read_name name.now }
{
    match name {
        "allocator" | "params" | "static_configs" | "relabel_configs" | "metric_relabel_configs" =>
            true,
        _ => false,
    }
}
