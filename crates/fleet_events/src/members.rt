//! Members put into a JSON object that is written.
ghost use Rattle.std.specs.Prelude.{◌≡◌, OnOk, codes};
ghost use Rattle.serde_json.specs.Data.{string, put as with_member};
ghost use Rattle.serde_json.specs.View.{members_view};

use serde_json::{Map, Value, put};
use std::alloc::{AllocError, Global};

/// Puts the name of an event.
pub(crate) fn put_event(
    members: &mut Map<String, Value>,
    alloc: Global,
    name: &str,
) -> Result<(), AllocError>
    ensures { OnOk result (members_view members.new.entries ≡ with_member (codes "event") (string name.now) (members_view members.old.entries)) }
{
    let name = String::from_str(alloc, name)?;
    put(members, alloc, "event", Value::String(name))
}
