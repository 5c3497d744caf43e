//! How even the targets of a job are made.
ghost use Rattle.std.specs.Prelude.{◌≡◌, option_map};
ghost use Rattle.serde_json.specs.View.{view, items_view};
ghost use Rattle.service_settings.specs.Reading.{Gives, each_from};
ghost use Rattle.service_settings.specs.JobSpread.{is_off as is_off_said, job_spread_of as job_spread_of_data, job_spread_said, spreads_said};

use crate::error::{Member, SettingsError};
use crate::reading::items_in;
use crate::settings::spread::slack_in;
use lists::List;
use serde_json::Value;
use std::alloc::Global;

/// How even the targets of a job are made, where loads are made even.
#[derive(Clone, Copy, Debug, PartialEq, Eq)]
pub enum JobSpread {
    /// Together with those of the other jobs of which this is said.
    Together,
    /// By themselves: a collector may have so many percent more of them than where they are the most even. From 0 to 1,000.
    Alone(u32),
    /// Not at all. They do not count.
    Off,
}

/// How even the targets of each job are made.
pub(crate) fn spreads_in(alloc: Global, document: &Value) -> Result<List<JobSpread>, SettingsError>
    ensures { Gives (λ s. s) result (spreads_said (view document.now)) }
{
    let configs = items_in(Member::ScrapeConfigs, document.get("scrape_configs"))?;
    each_spread(alloc, configs)
}

fn each_spread(alloc: Global, configs: &[Value]) -> Result<List<JobSpread>, SettingsError>
    ensures { Gives (λ s. s) result (each_from job_spread_said 0 (items_view configs.now)) }
{
    let mut spreads = List::new(alloc);
    for (job, config) in configs.iter().enumerate() {
        let spread = job_spread_in(job, config)?;
        spreads.push(spread)?;
    }
    Ok(spreads)
}

/// `Together` where it is left out.
fn job_spread_in(job: usize, config: &Value) -> Result<JobSpread, SettingsError>
    ensures { Gives (λ s. s) result (job_spread_said job (view config.now)) }
{
    let Some(value) = config.get("spread") else {
        return Ok(JobSpread::Together);
    };
    job_spread_of(value).ok_or(SettingsError::Shape(Member::JobSpread(job)))
}

/// `off`, or a slack.
fn job_spread_of(value: &Value) -> Option<JobSpread>
    ensures { result ≡ job_spread_of_data (view value.now) }
{
    if is_off(value) {
        return Some(JobSpread::Off);
    }
    let slack = slack_in(value)?;
    Some(JobSpread::Alone(slack))
}

/// Whether the value is the text `off`.
fn is_off(value: &Value) -> bool
    ensures { result ≡ is_off_said (view value.now) }
{
    match value.as_str() {
        Some(text) => text == "off",
        None => false,
    }
}
