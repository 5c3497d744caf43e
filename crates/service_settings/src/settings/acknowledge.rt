//! Where collectors tell that they follow their lists.
ghost use Rattle.std.specs.Prelude.{◌≡◌, option_map};
ghost use Rattle.serde_json.specs.View.{view};
ghost use Rattle.service_settings.specs.Reading.{Gives};
ghost use Rattle.service_settings.specs.Acknowledge.{acknowledge_said, is_host_and_port as is_host_and_port_text};

use crate::address::{parts_of, port_of};
use crate::error::{Member, SettingsError};
use crate::settings::doors::is_host_name;
use lists::Text;
use serde_json::Value;
use std::alloc::Global;

/// Nowhere where it is left out.
pub(crate) fn acknowledge_in(
    alloc: Global,
    found: Option<&Value>,
) -> Result<Option<Text>, SettingsError>
    ensures { Gives (λ a. a) result (acknowledge_said (option_map (λ v. view v.now) found.entry)) }
{
    let Some(value) = found else {
        return Ok(None);
    };
    match value.as_str() {
        Some(text) if is_host_and_port(text) => Ok(Some(Text::from_str(alloc, text)?)),
        _ => Err(SettingsError::Shape(Member::Acknowledge)),
    }
}

/// Whether it is the name or the address of a host, a colon and a port.
pub fn is_host_and_port(text: &str) -> bool
    ensures { result ≡ is_host_and_port_text text.now }
{
    match parts_of(text) {
        Some((host, port)) => {
            is_host_name(host.as_bytes()) && port_of(port.as_bytes()).is_some()
        }
        None => false,
    }
}
