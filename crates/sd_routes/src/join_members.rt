//! The members of a join, and how long the texts of its rules may be.
ghost use Rattle.std.specs.Prelude.{◌≡◌, option_map};
ghost use Rattle.serde_json.specs.View.{view, items_view, members_view};
ghost use Rattle.sd_routes.specs.JoinMembers.{is_join_member as is_join_name, other_member as other_member_of, is_short_text as is_short_text_of, is_short_rule as is_short_rule_of, are_short as are_short_in, is_short_reach as is_short_reach_of, is_join_object as is_join_data};

use serde_json::{Map, Value};

/// The most bytes of a label's name in a rule of a collector that joins.
pub const LONGEST_LABEL: usize = 1_024;
/// The most bytes of a label's value in such a rule.
pub const LONGEST_VALUE: usize = 4_096;

/// Whether the value is an object with no other members than a join has, and without texts that are too long.
pub(crate) fn is_join_object(value: &Value) -> bool
    ensures { result ≡ is_join_data (view value.now) }
{
    match value.as_object() {
        Some(members) => other_member(members).is_none() && is_short_reach(value.get("reach")),
        None => false,
    }
}

/// The first member that a join has not.
pub(crate) fn other_member(members: &Map<String, Value>) -> Option<&str>
    ensures { option_map (λ s. s.now) result ≡ other_member_of (members_view members.now.entries) }
{
    for (name, _value) in members.iter() {
        if !is_join_member(name.as_str()) {
            return Some(name.as_str());
        }
    }
    None
}

fn is_join_member(name: &str) -> bool
    ensures { result ≡ is_join_name name.now }
{
    match name {
        "event" | "limits" | "name" | "reach" => true,
        _ => false,
    }
}

fn is_short_reach(found: Option<&Value>) -> bool
    ensures { result ≡ is_short_reach_of (option_map (λ v. view v.now) found.entry) }
{
    let Some(reach) = found else {
        return true;
    };
    match reach.as_array() {
        Some(rules) => are_short(rules.as_slice()),
        None => true,
    }
}

fn are_short(rules: &[Value]) -> bool
    ensures { result ≡ are_short_in (items_view rules.now) }
{
    for rule in rules {
        if !is_short_rule(rule) {
            return false;
        }
    }
    true
}

/// Whether the label and the value of a rule are short enough.
pub(crate) fn is_short_rule(rule: &Value) -> bool
    ensures { result ≡ is_short_rule_of (view rule.now) }
{
    is_short_text(LONGEST_LABEL, rule.get("label"))
        && is_short_text(LONGEST_VALUE, rule.get("value"))
}

fn is_short_text(most: usize, found: Option<&Value>) -> bool
    ensures { result ≡ is_short_text_of most (option_map (λ v. view v.now) found.entry) }
{
    let Some(value) = found else {
        return true;
    };
    match value.as_str() {
        Some(text) => text.len() <= most,
        None => true,
    }
}
