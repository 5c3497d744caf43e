//! Members put into a JSON object that is written.
ghost use Rattle.std.specs.Prelude.{◌≡◌, IfOk, IsOk, OnOk};
ghost use Rattle.serde_json.specs.Data.{object, string, put as with_member};
ghost use Rattle.serde_json.specs.View.{view, members_view};

use serde_json::{Map, Value, put};
use std::alloc::{AllocError, Global};

/// Puts a text.
pub(crate) fn put_text(
    members: &mut Map<String, Value>,
    alloc: Global,
    key: &str,
    text: &str,
) -> Result<(), AllocError>
    ensures { OnOk result (members_view members.new.entries ≡ with_member key.now (string text.now) (members_view members.old.entries)) }
{
    let text = Value::try_from_str(alloc, text)?;
    put(members, alloc, key, text)
}

/// The object, if all members were put.
pub(crate) fn object_of(
    done: Result<(), AllocError>,
    members: Map<String, Value>,
) -> Result<Value, AllocError>
    ensures { IfOk result (λ v. IsOk done × (view v ≡ object (members_view members.entries))) }
{
    match done {
        Ok(()) => Ok(Value::Object(members)),
        Err(refused) => {
            drop(members);
            Err(refused)
        }
    }
}
