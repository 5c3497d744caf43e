//! Lists of target groups, as a discovery answers with them and as a configuration has them.
ghost use Rattle.std.specs.Prelude.{◌≡◌, None, [], option_map, sum_by, length, nat_le};
ghost use Rattle.serde_json.specs.View.{view, items_view, members_view};
ghost use Rattle.json_values.specs.Texts.{json_of};
ghost use Rattle.sd_documents.specs.declared.limits.TheConstants.{MOST_TARGETS};
ghost use Rattle.sd_documents.specs.Reading.{Gives, each_said};
ghost use Rattle.sd_documents.specs.Groups.{filled as filled_data, targets_said, label_said, labels_from, labels_said, parts_said, group_said, groups_said, groups_read, few_targets};

use crate::error::{Limit, Member, SdError};
use crate::group::Group;
use crate::json::{json_in, texts_in};
use crate::limits::MOST_TARGETS;
use label_sets::{LabelName, Labels};
use lists::{List, Text};
use serde_json::{Map, Value};
use std::alloc::Global;

/// Reads the document of a list of target groups.
pub fn read_groups(alloc: Global, bytes: &[u8]) -> Result<List<Group>, SdError>
    ensures said { Gives (λ g. g) result (groups_read bytes.now) }
    ensures not_json { result ≡ Err SdError.NotJson → json_of bytes.now ≡ None }
{
    let value = json_in(alloc, bytes)?;
    groups_in(alloc, 0, Member::Groups, &value)
}

/// Reads one target group.
pub fn read_group(alloc: Global, value: &Value) -> Result<Group, SdError>
    ensures { Gives (λ g. g) result (group_said 0 Member.Groups (view value.now)) }
{
    group_in(alloc, 0, Member::Groups, value)
}

/// A list of groups that has no more than the most targets.
pub(crate) fn groups_in(
    alloc: Global,
    index: usize,
    part: Member,
    value: &Value,
) -> Result<List<Group>, SdError>
    ensures { Gives (λ g. g) result (groups_said index part (view value.now)) }
{
    let values = value.as_array().ok_or(SdError::Shape(index, part))?;
    let groups = each_group(alloc, index, part, values.as_slice())?;
    few_targets_of(groups)
}

/// The groups, if they have no more than the most targets.
fn few_targets_of(groups: List<Group>) -> Result<List<Group>, SdError>
    ensures { Gives (λ g. g) result (few_targets groups) }
{
    if !has_few_targets(groups.as_slice()) {
        return Err(SdError::TooMany(Limit::Targets));
    }
    Ok(groups)
}

/// Whether the groups have no more targets together than a list may, 16,384.
pub fn has_few_targets(groups: &[Group]) -> bool
    ensures { result ≡ nat_le (sum_by (λ g. length g.targets) groups.now) MOST_TARGETS }
{
    let mut left = MOST_TARGETS;
    for group in groups {
        if group.targets.len() > left {
            return false;
        }
        left -= group.targets.len();
    }
    true
}

fn each_group(
    alloc: Global,
    index: usize,
    part: Member,
    values: &[Value],
) -> Result<List<Group>, SdError>
    ensures { Gives (λ g. g) result (each_said (group_said index part) (items_view values.now)) }
{
    let mut groups = List::new(alloc);
    for value in values {
        let group = group_in(alloc, index, part, value)?;
        groups.push(group)?;
    }
    Ok(groups)
}

fn group_in(alloc: Global, index: usize, part: Member, value: &Value) -> Result<Group, SdError>
    ensures { Gives (λ g. g) result (group_said index part (view value.now)) }
{
    if !value.is_object() {
        return Err(SdError::Shape(index, part));
    }
    let targets = targets_in(alloc, index, part, filled(value.get("targets")))?;
    let labels = labels_in(alloc, index, part, filled(value.get("labels")))?;
    Ok(Group { targets, labels })
}

/// A member that is there and not null.
fn filled(found: Option<&Value>) -> Option<&Value>
    ensures { option_map (λ v. view v.now) result ≡ filled_data (option_map (λ v. view v.now) found.entry) }
{
    match found {
        Some(value) if !value.is_null() => Some(value),
        _ => None,
    }
}

fn targets_in(
    alloc: Global,
    index: usize,
    part: Member,
    found: Option<&Value>,
) -> Result<List<Text>, SdError>
    ensures { Gives (λ t. t) result (targets_said index part (option_map (λ v. view v.now) found.entry)) }
{
    match found {
        Some(value) => texts_in(alloc, index, part, value),
        None => Ok(List::new(alloc)),
    }
}

fn labels_in(
    alloc: Global,
    index: usize,
    part: Member,
    found: Option<&Value>,
) -> Result<Labels, SdError>
    ensures { Gives (λ l. l) result (labels_said index part (option_map (λ v. view v.now) found.entry)) }
{
    let Some(value) = found else {
        return Ok(Labels::new(alloc));
    };
    let members = value.as_object().ok_or(SdError::Shape(index, part))?;
    each_label(alloc, index, part, members)
}

fn each_label(
    alloc: Global,
    index: usize,
    part: Member,
    members: &Map<String, Value>,
) -> Result<Labels, SdError>
    ensures { Gives (λ l. l) result (labels_from index part [] (members_view members.now.entries)) }
{
    let mut labels = Labels::new(alloc);
    for (name, value) in members.iter() {
        add_label(alloc, &mut labels, index, part, name.as_str(), value)?;
    }
    Ok(labels)
}

/// Gives the labels one more. The name is looked at before the text.
fn add_label(
    alloc: Global,
    labels: &mut Labels,
    index: usize,
    part: Member,
    name: &str,
    value: &Value,
) -> Result<(), SdError>
    ensures { Gives (λ _. labels.new) result (label_said index part labels.old name.now (view value.now)) }
{
    let name = LabelName::read(alloc, name)?;
    let text = value.as_str().ok_or(SdError::Shape(index, part))?;
    labels.set(name, text)?;
    Ok(())
}
