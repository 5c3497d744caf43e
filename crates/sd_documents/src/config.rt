//! The configuration: its jobs, and the scrape configs as they were read.
ghost use Rattle.std.specs.Prelude.{◌≡◌, IfOk, false};
ghost use Rattle.serde_json.specs.View.{view};
ghost use Rattle.serde_json.specs.Written.{has_float, compact_text};

mod as_read;
mod discovery;
mod entry;
mod floats;
mod jobs;
mod parts;
mod reading;
mod rules;
mod settings;

use crate::group::Group;
use lists::{List, Text};
pub use reading::read_config;
use serde_json::Value;
use std::alloc::{AllocError, Global};

/// What a configuration says.
#[derive(Drop)]
pub struct Config {
    pub jobs: List<Job>,
    /// An object with each scrape config, as read, under the name of its job.
    pub as_read: Value,
    // So its text is exact.
    pub ghost no_float: { has_float (view as_read) ≡ false },
}

/// A scrape config.
#[derive(Drop)]
pub struct Job {
    pub name: Text,
    pub metrics_path: Text,
    pub scheme: Text,
    /// How many targets there may be. 0 is no limit.
    pub target_limit: u32,
    /// The parameters of a scrape, in byte order of their names.
    pub params: List<Param>,
    pub static_groups: List<Group>,
    /// The URLs of service discovery by HTTP.
    pub http_urls: List<Text>,
    /// The relabelling rules, of which no more is known than that each is an object.
    pub rules: List<Value>,
}

/// A parameter, with its values.
#[derive(Drop)]
pub struct Param {
    pub name: Text,
    pub values: List<Text>,
}

/// The scrape configs as one compact JSON object, the members in byte order at every depth.
pub fn scrape_configs_text(alloc: Global, config: &Config) -> Result<Text, AllocError>
    ensures { IfOk result (λ t. t ≡ compact_text (view config.now.as_read)) }
{
    Ok(Text::from_string(config.as_read.to_string(alloc)?))
}
