//! Documents of labels and rules.

ghost use Rattle.std.specs.Prelude.{◌≡◌, IfOk, option_map, codes};
ghost use Rattle.serde_json.specs.Find.{as_array, as_object};
ghost use Rattle.serde_json.specs.View.{view, items_view, members_view};
ghost use Rattle.json_values.specs.Spelling.{member_in};
ghost use Rattle.offline_commands.specs.Relabelling.{IsFound, document_in, are_texts as are_texts_of};

use super::Finding;
use super::applying::found_for;
use relabel::Compiler;
use serde_json::{Map, Value};
use std::alloc::{AllocError, Global};

/// What is found in a JSON value, where it is a document.
pub(super) fn finding_in<C: Compiler>(
    compiler: &C,
    alloc: Global,
    value: &Value,
) -> Result<Option<Finding>, AllocError>
    ensures { IfOk result (IsFound C.too_big (document_in (view value.now))) }
{
    let (Some(labels), Some(rules)) = (labels_of(value), rules_of(value)) else {
        return Ok(None);
    };
    if !are_texts(labels) {
        return Ok(None);
    }
    Ok(Some(found_for(compiler, alloc, labels, rules)?))
}

/// The members of the object `labels`.
fn labels_of(value: &Value) -> Option<&Map<String, Value>>
    ensures { option_map (λ m. members_view m.now.entries) result ≡ member_in as_object (codes "labels") (view value.now) }
{
    value.get("labels")?.as_object()
}

/// The items of the list `relabel_configs`.
fn rules_of(value: &Value) -> Option<&[Value]>
    ensures { option_map (λ items. items_view items.now) result ≡ member_in as_array (codes "relabel_configs") (view value.now) }
{
    let items = value.get("relabel_configs")?.as_array()?;
    Some(items.as_slice())
}

/// Whether all members are texts.
fn are_texts(members: &Map<String, Value>) -> bool
    ensures { result ≡ are_texts_of (members_view members.now.entries) }
{
    for (_name, value) in members.iter() {
        if !value.is_string() {
            return false;
        }
    }
    true
}
