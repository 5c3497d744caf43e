//! The members of a scrape config that are a text or a number.
ghost use Rattle.std.specs.Prelude.{◌≡◌, option_map};
ghost use Rattle.serde_json.specs.View.{view};
ghost use Rattle.sd_documents.specs.Reading.{Gives};
ghost use Rattle.sd_documents.specs.Config.{name_said, text_or as text_or_data, limit_said, settings_said};
ghost use Rattle.sd_documents.specs.inner.Seen.{settings_data};

use crate::error::{Member, SdError};
use crate::json::text_in;
use json_values::number;
use lists::Text;
use serde_json::Value;
use std::alloc::Global;

#[derive(Drop)]
pub(crate) struct Settings {
    pub(crate) name: Text,
    pub(crate) metrics_path: Text,
    pub(crate) scheme: Text,
    pub(crate) target_limit: u32,
}

#[tactic(auto, unfolding(crate::specs::Config::settings_said))]
pub(crate) fn settings_in(alloc: Global, index: usize, entry: &Value) -> Result<Settings, SdError>
    ensures { Gives settings_data result (settings_said index (view entry.now)) }
{
    let name = name_in(alloc, index, entry.get("job_name"))?;
    let path = entry.get("metrics_path");
    let metrics_path = text_or(alloc, index, Member::MetricsPath, path, "/metrics")?;
    let scheme = entry.get("scheme");
    let scheme = text_or(alloc, index, Member::Scheme, scheme, "http")?;
    let target_limit = limit_in(index, entry.get("target_limit"))?;
    Ok(Settings {
        name,
        metrics_path,
        scheme,
        target_limit,
    })
}

/// A text that is not empty.
fn name_in(alloc: Global, index: usize, found: Option<&Value>) -> Result<Text, SdError>
    ensures { Gives (λ t. t) result (name_said index (option_map (λ v. view v.now) found.entry)) }
{
    let name = found
        .and_then(Value::as_str)
        .ok_or(SdError::Shape(index, Member::JobName))?;
    if name.is_empty() {
        return Err(SdError::Shape(index, Member::JobName));
    }
    let name = Text::from_str(alloc, name)?;
    Ok(name)
}

/// A text, or the default where it is absent.
fn text_or(
    alloc: Global,
    index: usize,
    part: Member,
    found: Option<&Value>,
    absent: &str,
) -> Result<Text, SdError>
    ensures { Gives (λ t. t) result (text_or_data absent.now index part (option_map (λ v. view v.now) found.entry)) }
{
    match found {
        Some(value) => text_in(alloc, index, part, value),
        None => {
            let text = Text::from_str(alloc, absent)?;
            Ok(text)
        }
    }
}

fn limit_in(index: usize, found: Option<&Value>) -> Result<u32, SdError>
    ensures { Gives (λ n. n) result (limit_said index (option_map (λ v. view v.now) found.entry)) }
{
    match found {
        Some(value) => number(value).ok_or(SdError::Shape(index, Member::TargetLimit)),
        None => Ok(0),
    }
}
