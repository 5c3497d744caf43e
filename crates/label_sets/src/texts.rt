//! JSON texts of label sets and of targets.
ghost use Rattle.std.specs.Prelude.{◌≡◌, ◌∷◌, ◌++◌, [], IfOk, IsTrue, OnOk, codes};
ghost use Rattle.std.specs.FinMap.{is_sorted};
ghost use Rattle.json.specs.Token.{key, string as string_token};
ghost use Rattle.serde_json.specs.Data.{string, array, object, item, no_items, member, no_members};
ghost use Rattle.serde_json.specs.View.{view};
ghost use Rattle.label_sets.specs.Labels.{byte_cmp};
ghost use Rattle.label_sets.specs.Target.{target_data, target_text};
ghost use Rattle.json_values.specs.Texts.{tokens_of};
ghost use Rattle.label_sets.specs.Written.{labels_data, labels_text};

use crate::name::LabelName;
use json::Writer;
use json_values::written_text;
use lists::Text;
use serde_json::{Map, Value, json};
use std::alloc::{AllocError, Global};

/// The object of a set's labels.
pub(crate) fn object_of(alloc: Global, entries: &[(LabelName, Text)]) -> Result<Value, AllocError>
    requires { IsTrue (is_sorted byte_cmp entries.now) }
    ensures { IfOk result (λ v. view v ≡ labels_data entries.now) }
{
    let mut members = Map::new(alloc);
    for entry in entries {
        let text = Value::try_from_str(alloc, entry.1.as_str())?;
        serde_json::put(&mut members, alloc, entry.0.as_str(), text)?;
    }
    Ok(Value::Object(members))
}

/// A set as one compact object.
pub(crate) fn text_of_labels(
    alloc: Global,
    entries: &[(LabelName, Text)],
) -> Result<Text, AllocError>
    ensures { IfOk result (λ t. t ≡ labels_text entries.now) }
{
    let mut out = Writer::new(Vec::new(alloc));
    match put_labels(&mut out, entries) {
        Ok(()) => written_text(out),
        Err(error) => {
            drop(out);
            Err(error)
        }
    }
}

/// The text of a target's group.
pub(crate) fn text_of_target(
    alloc: Global,
    entries: &[(LabelName, Text)],
    address: &str,
) -> Result<Text, AllocError>
    ensures { IfOk result (λ t. t ≡ target_text (record { address = address.now; labels = entries.now })) }
{
    let mut out = Writer::new(Vec::new(alloc));
    match put_target(&mut out, entries, address) {
        Ok(()) => written_text(out),
        Err(error) => {
            drop(out);
            Err(error)
        }
    }
}

/// Writes the group of a target.
pub(crate) fn put_target(
    out: &mut Writer,
    entries: &[(LabelName, Text)],
    address: &str,
) -> Result<(), AllocError>
    ensures tokens { OnOk result (out.new.tokens ≡ out.old.tokens ++ tokens_of (target_data (record { address = address.now; labels = entries.now }))) }
    ensures before { out.new.before ≡ out.old.before }
{
    out.begin_object()?;
    out.key("labels")?;
    put_labels(out, entries)?;
    out.key("targets")?;
    out.begin_array()?;
    out.string(address)?;
    out.end_array()?;
    out.end_object()
}

/// Writes the object of a set's labels.
fn put_labels(out: &mut Writer, entries: &[(LabelName, Text)]) -> Result<(), AllocError>
    ensures tokens { OnOk result (out.new.tokens ≡ out.old.tokens ++ tokens_of (labels_data entries.now)) }
    ensures before { out.new.before ≡ out.old.before }
{
    out.begin_object()?;
    for entry in entries {
        put_label(out, entry)?;
    }
    out.end_object()
}

fn put_label(out: &mut Writer, entry: &(LabelName, Text)) -> Result<(), AllocError>
    ensures tokens { OnOk result (out.new.tokens ≡ out.old.tokens ++ key entry.now.0 ∷ string_token entry.now.1 ∷ []) }
    ensures before { out.new.before ≡ out.old.before }
{
    out.key(entry.0.as_str())?;
    out.string(entry.1.as_str())
}

/// The group of a target.
pub(crate) fn value_of_target(
    alloc: Global,
    entries: &[(LabelName, Text)],
    address: &str,
) -> Result<Value, AllocError>
    requires { IsTrue (is_sorted byte_cmp entries.now) }
    ensures { IfOk result (λ v. view v ≡ target_data (record { address = address.now; labels = entries.now })) }
{
    let labels = object_of(alloc, entries)?;
    group_of(alloc, labels, address)
}

/// The group of one target.
fn group_of(alloc: Global, labels: Value, address: &str) -> Result<Value, AllocError>
    ensures { IfOk result (λ v. view v ≡ object (member (codes "labels") (view labels)
        (member (codes "targets") (array (item (string address.now) no_items)) no_members))) }
{
    json!(in alloc; {"labels": labels, "targets": [address]})
}
