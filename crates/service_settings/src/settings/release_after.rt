//! When what a collector's list has is let go.
ghost use Rattle.std.specs.Prelude.{◌≡◌, option_map};
ghost use Rattle.serde_json.specs.View.{view};
ghost use Rattle.service_settings.specs.Reading.{Gives};
ghost use Rattle.service_settings.specs.ReleaseAfter.{release_of as release_of_data, release_after_said};

use crate::error::{Member, SettingsError};
use crate::reading::{is_never, time};
use serde_json::Value;

/// How long after a collector was last heard of, live or not, its lists count as let go.
#[derive(Clone, Copy, Debug, PartialEq, Eq)]
pub enum ReleaseAfter {
    /// As long as the collector's timeout is.
    WithTimeout,
    /// So many milliseconds. Above 0.
    After(u64),
    Never,
}

/// `WithTimeout` where it is left out.
pub(crate) fn release_after_in(found: Option<&Value>) -> Result<ReleaseAfter, SettingsError>
    ensures { Gives (λ r. r) result (release_after_said (option_map (λ v. view v.now) found.entry)) }
{
    let Some(value) = found else {
        return Ok(ReleaseAfter::WithTimeout);
    };
    release_of(value).ok_or(SettingsError::Shape(Member::ReleaseAfter))
}

/// `never`, or a duration above 0.
fn release_of(value: &Value) -> Option<ReleaseAfter>
    ensures { result ≡ release_of_data (view value.now) }
{
    if is_never(value) {
        return Some(ReleaseAfter::Never);
    }
    let millis = time(value)?;
    Some(ReleaseAfter::After(millis))
}
