//! The members of a rule, by their shapes alone.
ghost use Rattle.std.specs.Prelude.{◌≡◌, option_map};
ghost use Rattle.serde_json.specs.View.{view, items_view};
ghost use Rattle.relabel.specs.Reading.{Gives};
ghost use Rattle.std.specs.Option.{ok_or};
ghost use Rattle.relabel.specs.Spelling.{label_name_said, label_names_from, source_labels_said, text_or as text_or_said, target_label_said, modulus_said, fields_from, fields_said};

use crate::error::RuleError;
use label_sets::{LabelError, LabelName};
use lists::{List, Text};
use serde_json::Value;
use std::alloc::Global;

/// The members of a rule, or their defaults.
#[derive(Drop)]
pub(crate) struct Fields {
    pub(crate) source_labels: List<LabelName>,
    pub(crate) separator: Text,
    pub(crate) target_label: Option<Text>,
    pub(crate) pattern: Text,
    pub(crate) modulus: u64,
    pub(crate) replacement: Text,
    pub(crate) action: Text,
}

pub(crate) fn fields_in(alloc: Global, value: &Value) -> Result<Fields, RuleError>
    ensures { Gives result (fields_said (view value.now)) }
{
    if !value.is_object() {
        return Err(RuleError::Shape);
    }
    fields_of_object(alloc, value)
}

#[tactic(auto, unfolding(crate::specs::Spelling::fields_from))]
fn fields_of_object(alloc: Global, value: &Value) -> Result<Fields, RuleError>
    ensures { Gives result (fields_from (view value.now)) }
{
    let source_labels = source_labels_in(alloc, value.get("source_labels"))?;
    let separator = text_or(alloc, value.get("separator"), ";")?;
    let target_label = target_label_in(alloc, value.get("target_label"))?;
    let pattern = text_or(alloc, value.get("regex"), "(.*)")?;
    let modulus = modulus_in(value.get("modulus"))?;
    let replacement = text_or(alloc, value.get("replacement"), "$1")?;
    let action = text_or(alloc, value.get("action"), "replace")?;
    Ok(Fields {
        source_labels,
        separator,
        target_label,
        pattern,
        modulus,
        replacement,
        action,
    })
}

fn source_labels_in(alloc: Global, found: Option<&Value>) -> Result<List<LabelName>, RuleError>
    ensures { Gives result (source_labels_said (option_map (λ v. view v.now) found.entry)) }
{
    let Some(value) = found else {
        return Ok(List::new(alloc));
    };
    let values = value.as_array().ok_or(RuleError::Shape)?;
    label_names_in(alloc, values.as_slice())
}

fn label_names_in(alloc: Global, values: &[Value]) -> Result<List<LabelName>, RuleError>
    ensures { Gives result (label_names_from (items_view values.now)) }
{
    let mut names = List::new(alloc);
    for value in values {
        let name = label_name_in(alloc, value)?;
        names.push(name)?;
    }
    Ok(names)
}

fn label_name_in(alloc: Global, value: &Value) -> Result<LabelName, RuleError>
    ensures { Gives result (ok_or (label_name_said (view value.now)) RuleError.Shape) }
{
    let text = value.as_str().ok_or(RuleError::Shape)?;
    match LabelName::read(alloc, text) {
        Ok(name) => Ok(name),
        Err(LabelError::BadLabelName) => Err(RuleError::Shape),
        Err(LabelError::Memory) => Err(RuleError::Memory),
    }
}

/// A text, or the default where it is absent.
fn text_or(alloc: Global, found: Option<&Value>, absent: &str) -> Result<Text, RuleError>
    ensures { Gives result (text_or_said absent.now (option_map (λ v. view v.now) found.entry)) }
{
    let text = match found {
        Some(value) => value.as_str().ok_or(RuleError::Shape)?,
        None => absent,
    };
    let text = Text::from_str(alloc, text)?;
    Ok(text)
}

fn target_label_in(alloc: Global, found: Option<&Value>) -> Result<Option<Text>, RuleError>
    ensures { Gives result (target_label_said (option_map (λ v. view v.now) found.entry)) }
{
    let Some(value) = found else {
        return Ok(None);
    };
    let text = value.as_str().ok_or(RuleError::Shape)?;
    let text = Text::from_str(alloc, text)?;
    Ok(Some(text))
}

fn modulus_in(found: Option<&Value>) -> Result<u64, RuleError>
    ensures { Gives result (modulus_said (option_map (λ v. view v.now) found.entry)) }
{
    match found {
        Some(value) => value.as_u64().ok_or(RuleError::Shape),
        None => Ok(0),
    }
}
