//! A scrape config, and the job that it says.
ghost use Rattle.std.specs.Prelude.{◌≡◌};
ghost use Rattle.serde_json.specs.View.{view};
ghost use Rattle.sd_documents.specs.Reading.{Gives};
ghost use Rattle.sd_documents.specs.Config.{job_data, job_said, members_said};
ghost use Rattle.sd_documents.specs.inner.Seen.{settings_data, parts_data};

use crate::config::Job;
use crate::config::discovery::unsupported_of;
use crate::config::floats::holds_float;
use crate::config::parts::{Parts, parts_in};
use crate::config::settings::{Settings, settings_in};
use crate::error::{Member, SdError};
use lists::Text;
use serde_json::Value;
use std::alloc::Global;

/// The job of an entry.
#[tactic(auto, unfolding(crate::specs::Config::job_said))]
pub(crate) fn job_in(alloc: Global, index: usize, entry: &Value) -> Result<Job, SdError>
    ensures { Gives job_data result (job_said index (view entry.now)) }
{
    if !entry.is_object() {
        return Err(SdError::Shape(index, Member::JobName));
    }
    if holds_float(entry) {
        return Err(SdError::Shape(index, Member::Number));
    }
    job_of_members(alloc, index, entry)
}

#[tactic(auto, unfolding(crate::specs::Config::members_said))]
fn job_of_members(alloc: Global, index: usize, entry: &Value) -> Result<Job, SdError>
    ensures { Gives job_data result (members_said index (view entry.now)) }
{
    let settings = settings_in(alloc, index, entry)?;
    let parts = parts_in(alloc, index, entry)?;
    if let Some(name) = unsupported_of(entry) {
        let name = Text::from_str(alloc, name)?;
        return Err(SdError::UnsupportedDiscovery(name));
    }
    Ok(job_of(settings, parts))
}

fn job_of(settings: Settings, parts: Parts) -> Job
    ensures { job_data result ≡ record { settings = settings_data settings; parts = parts_data parts } }
{
    Job {
        name: settings.name,
        metrics_path: settings.metrics_path,
        scheme: settings.scheme,
        target_limit: settings.target_limit,
        params: parts.params,
        static_groups: parts.static_groups,
        http_urls: parts.http_urls,
        rules: parts.rules,
    }
}
