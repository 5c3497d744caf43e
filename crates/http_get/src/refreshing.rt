//! Refreshing what a discovery source lists.
ghost use Rattle.std.specs.Prelude.{◌≡◌, ◌≤◌, length, IfOk, IfSome};
ghost use Rattle.std.specs.Option.{option_map};
ghost use Rattle.http_get.specs.Urls.{url_get};
ghost use Rattle.http_get.specs.Refreshing.{source_get, IsHeard, Refreshed};

use crate::discovery::{Listing, found, listed};
use crate::error::RefreshError;
use crate::get::Get;
use crate::reply::{FetchFault, Reply};
use crate::scrape::Scrape;
use crate::url::get_of_url;
use fleet_events::Event;
use lists::Text;
use relabel::Rules;
use sd_documents::Job;
use std::alloc::{AllocError, Global};

/// Asks a job's source once for what it lists. Source 1 + i is the job's i-th URL, and no other source is asked. Where it is
/// refused there is no event, so what the source listed before stays.
pub fn refresh<S: Scrape>(
    alloc: Global,
    job: &Job,
    rules: &Rules,
    source: u32,
    scrape: &mut S,
) -> Result<Event, RefreshError>
    ensures { Refreshed S.may_fetch scrape.old scrape.new job.now rules.now source result }
{
    let Some(url) = url_of(job, source) else {
        return Err(RefreshError::NoSource);
    };
    let get = get_of_url(alloc, url.as_str())?;
    match scrape.fetch(&get) {
        Ok(reply) => found(alloc, job, rules, source, &reply),
        Err(fault) => Err(RefreshError::from(fault)),
    }
}

/// What a job's source lists, by what asking it once came to, and how many targets of it are left out.
pub fn heard(
    alloc: Global,
    job: &Job,
    rules: &Rules,
    source: u32,
    fetched: &Result<Reply, FetchFault>,
) -> Result<Listing, RefreshError>
    ensures { IsHeard job.now rules.now source fetched.now (source_get job.now source) result }
{
    if url_of(job, source).is_none() {
        return Err(RefreshError::NoSource);
    }
    match fetched {
        Ok(reply) => listed(alloc, job, rules, source, reply),
        Err(fault) => Err(RefreshError::from(*fault)),
    }
}

/// How a source is asked, where the job has one of this number that is asked at all.
pub fn get_of_source(alloc: Global, job: &Job, source: u32) -> Result<Option<Get>, AllocError>
    ensures { IfOk result (λ get. get ≡ source_get job.now source) }
{
    match url_of(job, source) {
        Some(url) => Ok(Some(get_of_url(alloc, url.as_str())?)),
        None => Ok(None),
    }
}

/// The URL of a source, where the job has one of this number that is asked at all.
fn url_of(job: &Job, source: u32) -> Option<&Text>
    ensures url { option_map (λ url. url_get url.now) result ≡ source_get job.now source }
    ensures listed { IfSome result (λ _. source ≤ length job.now.http_urls) }
{
    match source.checked_sub(1) {
        Some(index) => job.http_urls.as_slice().get(index as usize),
        None => None,
    }
}
