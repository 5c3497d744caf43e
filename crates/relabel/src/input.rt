//! What a rule's pattern is matched with: the texts of its source labels, joined.
ghost use Rattle.std.specs.Prelude.{◌≡◌, ◌++◌, IfOk, OnOk, flat_map, string_bytes};
ghost use Rattle.label_sets.specs.Labels.{label_text};
ghost use Rattle.relabel.specs.Effect.{input_of as input_of_rule};

use crate::rule::RuleSettings;
use label_sets::{LabelName, Labels};
use lists::Text;
use std::alloc::{AllocError, Global};

/// The texts of the source labels, with the separator between them.
#[tactic(auto, unfolding(crate::specs::Effect::input_of))]
pub(crate) fn input_of(
    alloc: Global,
    rule: &RuleSettings,
    labels: &Labels,
) -> Result<Text, AllocError>
    ensures { IfOk result (λ t. t ≡ input_of_rule rule.now labels.now) }
{
    let mut text = String::new(alloc);
    let Some((first, others)) = rule.source_labels.as_slice().split_first() else {
        return Ok(Text::from_string(text));
    };
    text.push_str(labels.get(first))?;
    add_others(&mut text, rule.separator.as_str(), others, labels)?;
    Ok(Text::from_string(text))
}

/// Adds each text after a separator.
fn add_others(
    text: &mut String,
    separator: &str,
    names: &[LabelName],
    labels: &Labels,
) -> Result<(), AllocError>
    ensures { OnOk result (string_bytes text.new ≡ string_bytes text.old ++ flat_map (λ name. separator.now ++ label_text labels.now name) names.now) }
{
    for name in names {
        text.push_str(separator)?;
        text.push_str(labels.get(name))?;
    }
    Ok(())
}
