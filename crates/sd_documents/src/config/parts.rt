//! The members of a scrape config that are lists or objects.
ghost use Rattle.std.specs.Prelude.{option_map};
ghost use Rattle.serde_json.specs.View.{view, items_view, members_view};
ghost use Rattle.sd_documents.specs.Reading.{Gives, each_said};
ghost use Rattle.sd_documents.specs.Config.{params_from, params_said, static_said, url_said, few_urls, urls_said, parts_said};
ghost use Rattle.sd_documents.specs.inner.Seen.{parts_data};

use crate::config::Param;
use crate::config::rules::rules_in;
use crate::error::{Limit, Member, SdError};
use crate::group::Group;
use crate::groups::groups_in;
use crate::json::texts_in;
use crate::limits::MOST_URLS;
use lists::{List, Text};
use serde_json::{Map, Value};
use std::alloc::Global;

#[derive(Drop)]
pub(crate) struct Parts {
    pub(crate) params: List<Param>,
    pub(crate) static_groups: List<Group>,
    pub(crate) http_urls: List<Text>,
    pub(crate) rules: List<Value>,
}

#[tactic(auto, unfolding(crate::specs::Config::parts_said))]
pub(crate) fn parts_in(alloc: Global, index: usize, entry: &Value) -> Result<Parts, SdError>
    ensures { Gives parts_data result (parts_said index (view entry.now)) }
{
    let params = params_in(alloc, index, entry.get("params"))?;
    let static_groups = static_in(alloc, index, entry.get("static_configs"))?;
    let http_urls = urls_in(alloc, index, entry.get("http_sd_configs"))?;
    let rules = rules_in(alloc, index, entry.get("relabel_configs"))?;
    Ok(Parts {
        params,
        static_groups,
        http_urls,
        rules,
    })
}

fn params_in(alloc: Global, index: usize, found: Option<&Value>) -> Result<List<Param>, SdError>
    ensures { Gives (λ p. p) result (params_said index (option_map (λ v. view v.now) found.entry)) }
{
    let Some(value) = found else {
        return Ok(List::new(alloc));
    };
    let members = value
        .as_object()
        .ok_or(SdError::Shape(index, Member::Params))?;
    each_param(alloc, index, members)
}

fn each_param(
    alloc: Global,
    index: usize,
    members: &Map<String, Value>,
) -> Result<List<Param>, SdError>
    ensures { Gives (λ p. p) result (params_from index (members_view members.now.entries)) }
{
    let mut params = List::new(alloc);
    for (name, value) in members.iter() {
        let values = texts_in(alloc, index, Member::Params, value)?;
        let name = Text::from_str(alloc, name.as_str())?;
        params.push(Param { name, values })?;
    }
    Ok(params)
}

fn static_in(alloc: Global, index: usize, found: Option<&Value>) -> Result<List<Group>, SdError>
    ensures { Gives (λ g. g) result (static_said index (option_map (λ v. view v.now) found.entry)) }
{
    match found {
        Some(value) => groups_in(alloc, index, Member::StaticConfigs, value),
        None => Ok(List::new(alloc)),
    }
}

fn urls_in(alloc: Global, index: usize, found: Option<&Value>) -> Result<List<Text>, SdError>
    ensures { Gives (λ u. u) result (urls_said index (option_map (λ v. view v.now) found.entry)) }
{
    let Some(value) = found else {
        return Ok(List::new(alloc));
    };
    let values = value
        .as_array()
        .ok_or(SdError::Shape(index, Member::HttpSdConfigs))?;
    let urls = each_url(alloc, index, values.as_slice())?;
    few_urls_of(urls)
}

/// The URLs, if there are no more than the most.
fn few_urls_of(urls: List<Text>) -> Result<List<Text>, SdError>
    ensures { Gives (λ u. u) result (few_urls urls) }
{
    if urls.len() > MOST_URLS {
        return Err(SdError::TooMany(Limit::Sources));
    }
    Ok(urls)
}

fn each_url(alloc: Global, index: usize, values: &[Value]) -> Result<List<Text>, SdError>
    ensures { Gives (λ u. u) result (each_said (url_said index) (items_view values.now)) }
{
    let mut urls = List::new(alloc);
    for value in values {
        let url = url_in(alloc, index, value)?;
        urls.push(url)?;
    }
    Ok(urls)
}

fn url_in(alloc: Global, index: usize, value: &Value) -> Result<Text, SdError>
    ensures { Gives (λ t. t) result (url_said index (view value.now)) }
{
    let url = value
        .get("url")
        .and_then(Value::as_str)
        .ok_or(SdError::Shape(index, Member::HttpSdConfigs))?;
    let url = Text::from_str(alloc, url)?;
    Ok(url)
}
