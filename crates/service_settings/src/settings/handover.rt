//! When a list that is served may have a target that another collector's list has.
ghost use Rattle.std.specs.Prelude.{◌≡◌, option_map};
ghost use Rattle.serde_json.specs.View.{view};
ghost use Rattle.service_settings.specs.Reading.{Gives};
ghost use Rattle.service_settings.specs.Handover.{handover_named as handover_named_by, handover_said};

use crate::error::{Member, SettingsError};
use serde_json::Value;

/// When a target that moved is in the list of the collector that it moved to.
#[derive(Clone, Copy, Debug, PartialEq, Eq)]
pub enum Handover {
    /// Once the collector that had it was served a list without it.
    Ordered,
    /// At once.
    Free,
}

/// `ordered` where it is left out.
pub(crate) fn handover_in(found: Option<&Value>) -> Result<Handover, SettingsError>
    ensures { Gives (λ h. h) result (handover_said (option_map (λ v. view v.now) found.entry)) }
{
    let Some(value) = found else {
        return Ok(Handover::Ordered);
    };
    let name = value
        .as_str()
        .ok_or(SettingsError::Shape(Member::Handover))?;
    handover_named(name).ok_or(SettingsError::Shape(Member::Handover))
}

fn handover_named(name: &str) -> Option<Handover>
    ensures { result ≡ handover_named_by name.now }
{
    match name {
        "ordered" => Some(Handover::Ordered),
        "free" => Some(Handover::Free),
        _ => None,
    }
}
