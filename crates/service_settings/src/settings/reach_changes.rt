//! When another reach of a collector is taken.
ghost use Rattle.std.specs.Prelude.{◌≡◌, option_map};
ghost use Rattle.serde_json.specs.View.{view};
ghost use Rattle.service_settings.specs.Reading.{Gives};
ghost use Rattle.service_settings.specs.ReachChanges.{reach_changes_named as reach_changes_named_by, reach_changes_said};

use crate::error::{Member, SettingsError};
use serde_json::Value;

/// When a collector of the configuration whose reach is another one in a configuration that is read again leaves and joins with it.
#[derive(Clone, Copy, Debug, PartialEq, Eq)]
pub enum ReachChanges {
    /// Once it is drained, and holds nothing.
    Drained,
    /// At once.
    Now,
}

/// `drained` where it is left out.
pub(crate) fn reach_changes_in(found: Option<&Value>) -> Result<ReachChanges, SettingsError>
    ensures { Gives (λ r. r) result (reach_changes_said (option_map (λ v. view v.now) found.entry)) }
{
    let Some(value) = found else {
        return Ok(ReachChanges::Drained);
    };
    let name = value
        .as_str()
        .ok_or(SettingsError::Shape(Member::ReachChanges))?;
    reach_changes_named(name).ok_or(SettingsError::Shape(Member::ReachChanges))
}

fn reach_changes_named(name: &str) -> Option<ReachChanges>
    ensures { result ≡ reach_changes_named_by name.now }
{
    match name {
        "drained" => Some(ReachChanges::Drained),
        "now" => Some(ReachChanges::Now),
        _ => None,
    }
}
