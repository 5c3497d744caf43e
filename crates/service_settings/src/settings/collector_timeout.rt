//! After how long without a word a collector counts as gone.
ghost use Rattle.std.specs.Prelude.{◌≡◌, option_map};
ghost use Rattle.serde_json.specs.View.{view};
ghost use Rattle.service_settings.specs.Reading.{Gives};
ghost use Rattle.service_settings.specs.CollectorTimeout.{timeout_of as timeout_of_data, collector_timeout_said};

use crate::error::{Member, SettingsError};
use crate::reading::{is_never, time};
use serde_json::Value;

/// After how long without asking for a list a collector is drained, and after how long again it leaves.
#[derive(Clone, Copy, Debug, PartialEq, Eq)]
pub enum CollectorTimeout {
    /// After three times the longest gap between two lists that the collector showed, and at least three minutes.
    Adaptive,
    /// After so many milliseconds. Above 0.
    After(u64),
    Never,
}

/// `Adaptive` where it is left out.
pub(crate) fn collector_timeout_in(found: Option<&Value>) -> Result<CollectorTimeout, SettingsError>
    ensures { Gives (λ t. t) result (collector_timeout_said (option_map (λ v. view v.now) found.entry)) }
{
    let Some(value) = found else {
        return Ok(CollectorTimeout::Adaptive);
    };
    timeout_of(value).ok_or(SettingsError::Shape(Member::CollectorTimeout))
}

/// `never`, or a duration above 0.
fn timeout_of(value: &Value) -> Option<CollectorTimeout>
    ensures { result ≡ timeout_of_data (view value.now) }
{
    if is_never(value) {
        return Some(CollectorTimeout::Never);
    }
    let millis = time(value)?;
    Some(CollectorTimeout::After(millis))
}
