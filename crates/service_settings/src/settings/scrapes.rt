//! How long a round of scrapes is, and how often the sources of the jobs are asked.
ghost use Rattle.std.specs.Prelude.{IfOk};
ghost use Rattle.serde_json.specs.View.{view, items_view};
ghost use Rattle.service_settings.specs.Reading.{Gives, each_from};
ghost use Rattle.service_settings.specs.Beside.{AreBeside};
ghost use Rattle.service_settings.specs.Settings.{scrape_interval_said, refresh_said, sources_said, source_said};

use crate::error::{Member, SettingsError};
use crate::reading::{items_in, member_of, object_or_none, time_or};
use crate::settings::DEFAULT_INTERVAL;
use lists::List;
use sd_documents::documents_laws;
use serde_json::Value;
use std::alloc::Global;

pub(crate) fn scrape_interval_in(document: &Value) -> Result<u64, SettingsError>
    ensures { Gives (λ n. n) result (scrape_interval_said (view document.now)) }
{
    let global = object_or_none(Member::Global, document.get("global"))?;
    let found = member_of(global, "scrape_interval");
    time_or(DEFAULT_INTERVAL, Member::ScrapeInterval, found)
}

/// How often each source of each job is asked.
pub(crate) fn refresh_in(alloc: Global, document: &Value) -> Result<List<List<u64>>, SettingsError>
    ensures said { Gives (λ r. r) result (refresh_said (view document.now)) }
    ensures beside { IfOk result (AreBeside (view document.now)) }
{
    documents_laws();
    let configs = items_in(Member::ScrapeConfigs, document.get("scrape_configs"))?;
    each_config(alloc, configs)
}

fn each_config(alloc: Global, configs: &[Value]) -> Result<List<List<u64>>, SettingsError>
    ensures { Gives (λ r. r) result (each_from sources_said 0 (items_view configs.now)) }
{
    let mut refresh = List::new(alloc);
    for (job, config) in configs.iter().enumerate() {
        let intervals = sources_in(alloc, job, config)?;
        refresh.push(intervals)?;
    }
    Ok(refresh)
}

/// How often each source of a job is asked.
fn sources_in(alloc: Global, job: usize, config: &Value) -> Result<List<u64>, SettingsError>
    ensures { Gives (λ r. r) result (sources_said job (view config.now)) }
{
    if !config.is_object() {
        return Err(SettingsError::Shape(Member::ScrapeConfig(job)));
    }
    let sources = items_in(Member::HttpSdConfigs(job), config.get("http_sd_configs"))?;
    each_source(alloc, job, sources)
}

fn each_source(alloc: Global, job: usize, sources: &[Value]) -> Result<List<u64>, SettingsError>
    ensures { Gives (λ r. r) result (each_from (source_said job) 0 (items_view sources.now)) }
{
    let mut intervals = List::new(alloc);
    for (entry, source) in sources.iter().enumerate() {
        let interval = source_in(job, entry, source)?;
        intervals.push(interval)?;
    }
    Ok(intervals)
}

fn source_in(job: usize, entry: usize, source: &Value) -> Result<u64, SettingsError>
    ensures { Gives (λ n. n) result (source_said job entry (view source.now)) }
{
    if !source.is_object() {
        return Err(SettingsError::Shape(Member::HttpSdConfig(job, entry)));
    }
    let member = Member::RefreshInterval(job, entry);
    time_or(DEFAULT_INTERVAL, member, source.get("refresh_interval"))
}
