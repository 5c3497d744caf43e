//! What the rules of a document make of its labels.

ghost use Rattle.std.specs.Prelude.{◌≡◌, IfOk, None, Some};
ghost use Rattle.serde_json.specs.View.{items_view, members_view};
ghost use Rattle.label_sets.specs.Finish.{finished};
ghost use Rattle.label_sets.specs.Written.{labels_text};
ghost use Rattle.relabel.specs.Applying.{relabelled};
ghost use Rattle.offline_commands.specs.Relabelling.{IsFinding, finding_of, finished_text, labels_in as labels_in_members};

use super::Finding;
use label_sets::{Finished, LabelError, Labels, finish};
use lists::Text;
use relabel::{Compiler, Relabelled, RuleError, Rules};
use serde_json::{Map, Value};
use std::alloc::{AllocError, Global};

/// What is found for labels and rules. The names are looked at before the rules.
pub(super) fn found_for<C: Compiler>(
    compiler: &C,
    alloc: Global,
    members: &Map<String, Value>,
    rules: &[Value],
) -> Result<Finding, AllocError>
    ensures { IfOk result (IsFinding C.too_big (labels_in_members (members_view members.now.entries)) (items_view rules.now)) }
{
    match labels_in(alloc, members) {
        Ok(labels) => found_by_rules(compiler, alloc, &labels, rules),
        Err(LabelError::BadLabelName) => Ok(Finding::BadLabelName),
        Err(LabelError::Memory) => Err(AllocError),
    }
}

/// The labels that the members are.
fn labels_in(alloc: Global, members: &Map<String, Value>) -> Result<Labels, LabelError>
    ensures labels { IfOk result (λ l. labels_in_members (members_view members.now.entries) ≡ Some l) }
    ensures bad_name { result ≡ Err LabelError.BadLabelName → labels_in_members (members_view members.now.entries) ≡ None }
{
    let mut labels = Labels::new(alloc);
    for (name, value) in members.iter() {
        labels.set(name.as_str(), value.as_str().unwrap_or(""))?;
    }
    Ok(labels)
}

/// What is found for the rules.
fn found_by_rules<C: Compiler>(
    compiler: &C,
    alloc: Global,
    labels: &Labels,
    rules: &[Value],
) -> Result<Finding, AllocError>
    ensures { IfOk result (IsFinding C.too_big (Some labels.now) (items_view rules.now)) }
{
    match Rules::read_by(compiler, alloc, rules) {
        Ok(rules) => applied(alloc, &rules, labels),
        Err(refused) => match refused.error {
            RuleError::Memory => Err(AllocError),
            error => Ok(Finding::RefusedRule(refused.number, error)),
        },
    }
}

/// What the rules make of the labels.
fn applied(alloc: Global, rules: &Rules, labels: &Labels) -> Result<Finding, AllocError>
    ensures { IfOk result (λ finding. finding ≡ finding_of (relabelled rules.now labels.now)) }
{
    match rules.apply(alloc, labels)? {
        Relabelled::Kept(labels) => kept(alloc, &labels),
        Relabelled::Dropped(number) => Ok(Finding::Dropped(number)),
    }
}

/// The texts of the labels and of the target that they are finished to.
fn kept(alloc: Global, labels: &Labels) -> Result<Finding, AllocError>
    ensures { IfOk result (λ finding. finding ≡ Finding.Kept (labels_text labels.now) (finished_text (finished labels.now))) }
{
    Ok(Finding::Kept {
        labels: labels.to_json()?,
        target: target_text(alloc, labels)?,
    })
}

/// The text of the group of the target that the labels are finished to, unless there is no address.
fn target_text(alloc: Global, labels: &Labels) -> Result<Option<Text>, AllocError>
    ensures { IfOk result (λ text. text ≡ finished_text (finished labels.now)) }
{
    match finish(alloc, labels)? {
        Finished::Target(target) => Ok(Some(Text::from_str(alloc, target.text())?)),
        Finished::NoAddress => Ok(None),
    }
}
