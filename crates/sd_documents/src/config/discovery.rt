//! Service discovery other than by HTTP, which is not supported.
ghost use Rattle.std.specs.Prelude.{◌≡◌, option_map, option_and_then};
ghost use Rattle.serde_json.specs.Find.{as_object};
ghost use Rattle.serde_json.specs.View.{view, members_view};
ghost use Rattle.sd_documents.specs.Config.{is_unsupported as is_unsupported_name, unsupported_in as unsupported_in_data};

use serde_json::{Map, Value};

/// The first member for a service discovery that is not supported.
pub(crate) fn unsupported_of(value: &Value) -> Option<&str>
    ensures { option_map (λ s. s.now) result ≡ option_and_then unsupported_in_data (as_object (view value.now)) }
{
    match value.as_object() {
        Some(members) => unsupported_in(members),
        None => None,
    }
}

fn unsupported_in(members: &Map<String, Value>) -> Option<&str>
    ensures { option_map (λ s. s.now) result ≡ unsupported_in_data (members_view members.now.entries) }
{
    for (name, _value) in members.iter() {
        if is_unsupported(name.as_str()) {
            return Some(name.as_str());
        }
    }
    None
}

fn is_unsupported(name: &str) -> bool
    ensures { result ≡ is_unsupported_name name.now }
{
    name.as_bytes().ends_with(b"_sd_configs") && name != "http_sd_configs"
}
