//! Reading the document of a configuration.
ghost use Rattle.std.specs.Prelude.{◌≡◌, IfOk, None, false, option_map};
ghost use Rattle.json_values.specs.Texts.{json_of};
ghost use Rattle.serde_json.specs.View.{view, items_view};
ghost use Rattle.serde_json.specs.Written.{has_float};
ghost use Rattle.sd_documents.specs.Reading.{Gives};
ghost use Rattle.sd_documents.specs.Limits.{AreJobs};
ghost use Rattle.sd_documents.specs.Config.{config_data, config_said, config_read, entries_in as entries_in_data, entries_said, listed_entries};

use crate::config::Config;
use crate::config::as_read::as_read_of;
use crate::config::jobs::jobs_in;
use crate::error::{Limit, Member, SdError};
use crate::json::{count_of, json_in};
use crate::limits::MOST_JOBS;
use serde_json::Value;
use std::alloc::Global;

/// Reads the document of a configuration.
pub fn read_config(alloc: Global, bytes: &[u8]) -> Result<Config, SdError>
    ensures said { Gives config_data result (config_read bytes.now) }
    ensures not_json { result ≡ Err SdError.NotJson → json_of bytes.now ≡ None }
    ensures no_float { IfOk result (λ c. has_float (view c.as_read) ≡ false) }
    ensures jobs { IfOk result (λ c. AreJobs c.jobs) }
{
    let value = json_in(alloc, bytes)?;
    config_in(alloc, &value)
}

#[tactic(auto, using(crate::proofs::NoFloat::no_float_as_read), unfolding(crate::specs::Config::config_said))]
fn config_in(alloc: Global, value: &Value) -> Result<Config, SdError>
    ensures said { Gives config_data result (config_said (view value.now)) }
    ensures no_float { IfOk result (λ c. has_float (view c.as_read) ≡ false) }
    ensures jobs { IfOk result (λ c. AreJobs c.jobs) }
{
    let entries = few_entries_in(value)?;
    let jobs = jobs_in(alloc, entries)?;
    let as_read = as_read_of(alloc, entries)?;
    Ok(Config { jobs, as_read })
}

fn few_entries_in(value: &Value) -> Result<&[Value], SdError>
    ensures { Gives (λ s. items_view s.now) result (listed_entries (view value.now)) }
{
    let entries = entries_of(value)?;
    if count_of(entries) > MOST_JOBS {
        return Err(SdError::TooMany(Limit::Jobs));
    }
    Ok(entries)
}

/// The entries of `scrape_configs`.
fn entries_of(value: &Value) -> Result<&[Value], SdError>
    ensures { Gives (λ s. items_view s.now) result (entries_said (view value.now)) }
{
    if !value.is_object() {
        return Err(SdError::Shape(0, Member::ScrapeConfigs));
    }
    entries_in(value.get("scrape_configs"))
}

fn entries_in(found: Option<&Value>) -> Result<&[Value], SdError>
    ensures { Gives (λ s. items_view s.now) result (entries_in_data (option_map (λ v. view v.now) found.entry)) }
{
    let Some(value) = found else {
        return Ok(&[]);
    };
    let entries = value
        .as_array()
        .ok_or(SdError::Shape(0, Member::ScrapeConfigs))?;
    Ok(entries.as_slice())
}
