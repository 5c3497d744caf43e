//! Which names are known, and the first of an object's that is not.
ghost use Rattle.std.specs.Prelude.{◌≡◌, map, option_map};
ghost use Rattle.serde_json.specs.View.{members_view};
ghost use Rattle.config_members.specs.Unknown.{is_among as is_among_names, unknown_in};

use serde_json::{Map, Value};

/// Whether a name is among these.
pub fn is_among(names: &[&str], name: &str) -> bool
    ensures { result ≡ is_among_names (map (λ s. s.now) names.now) name.now }
{
    for candidate in names {
        if *candidate == name {
            return true;
        }
    }
    false
}

/// The first member of an object, in byte order, whose name is not among these.
pub fn unknown_member<'a>(names: &[&str], members: &'a Map<String, Value>) -> Option<&'a str>
    ensures { option_map (λ s. s.now) result ≡ unknown_in (map (λ s. s.now) names.now) (members_view members.now.entries) }
{
    for (name, _value) in members.iter() {
        if !is_among(names, name.as_str()) {
            return Some(name.as_str());
        }
    }
    None
}
