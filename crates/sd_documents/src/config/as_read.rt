//! The scrape configs as they were read, under the names of their jobs.
ghost use Rattle.std.specs.Prelude.{◌≡◌, IfOk};
ghost use Rattle.serde_json.specs.Data.{object, no_members};
ghost use Rattle.serde_json.specs.View.{view, items_view, members_view};
ghost use Rattle.sd_documents.specs.Config.{as_read_from, name_of as name_of_data};

use serde_json::{Map, Value, put};
use std::alloc::{AllocError, Global};

/// The object with each entry under its name.
pub(crate) fn as_read_of(alloc: Global, entries: &[Value]) -> Result<Value, AllocError>
    ensures { IfOk result (λ v. view v ≡ object (as_read_from no_members (items_view entries.now))) }
{
    let members = members_of(alloc, entries)?;
    Ok(Value::Object(members))
}

fn members_of(alloc: Global, entries: &[Value]) -> Result<Map<String, Value>, AllocError>
    ensures { IfOk result (λ m. members_view m.entries ≡ as_read_from no_members (items_view entries.now)) }
{
    let mut members = Map::new(alloc);
    for entry in entries {
        let copy = entry.clone()?;
        put(&mut members, alloc, name_of(entry), copy)?;
    }
    Ok(members)
}

/// The name of an entry.
fn name_of(entry: &Value) -> &str
    ensures { result.now ≡ name_of_data (view entry.now) }
{
    entry.get("job_name").and_then(Value::as_str).unwrap_or("")
}
