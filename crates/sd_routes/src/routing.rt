//! What a method and a target ask for.
ghost use Rattle.http_uri.specs.Uri.{uri_path, uri_query};
ghost use Rattle.std.specs.Prelude.{◌≡◌, option_copied};
ghost use Rattle.std.specs.Char.{is_ascii_digit};
ghost use Rattle.std.specs.List.{list_all};
ghost use Rattle.sd_routes.specs.Asks.{acknowledged_asked, asked, asked_at, books_asked, books_numbered, collector_asked, collectors_asked, scrape_configs_asked, job_asked, job_targets_asked, held_asked, is_show, targets_asked, uncovered_asked, which_in, name_said};
ghost use Rattle.sd_routes.specs.Decimals.{decimal_in};
ghost use Rattle.sd_routes.specs.Gives.{Gives};

use crate::acknowledgement::Acknowledgement;
use crate::ask::Ask;
use crate::decimal::{MOST_OF_32_BITS, MOST_OF_64_BITS, decimal_of_32_bits};
use crate::place::Place;
use crate::purpose::Purpose;
use crate::query::{flag_of, number_of, value_of};
use crate::request_error::RequestError;
use crate::routes::Routes;
use crate::segment::{decoded, second_segment};
use crate::which_collector::WhichCollector;
use http::{Method, Uri};
use lists::Text;
use reach_rules::{CollectorName, NameError};
use std::alloc::Global;

/// What a request asks for. HEAD asks for what GET does, but nothing is taken or noted (RFC 9110, section 9.2.1). Where several refusals hold, the
/// first of these is given: no such path, another method, a segment of another shape or a flag of the query that is none, a collector's name
/// that is none.
pub fn route(
    routes: &Routes,
    alloc: Global,
    method: &Method,
    target: &Uri,
) -> Result<Ask, RequestError>
    ensures { Gives result (asked method.now (uri_path target.now) (uri_query target.now)) }
{
    let path = target.path();
    let place = routes.place(path).ok_or(RequestError::NoRoute)?;
    match place.purpose(method.as_str()) {
        Some(purpose) => ask_at(alloc, place, purpose, path, target.query()),
        None => Err(RequestError::Method(place)),
    }
}

fn ask_at(
    alloc: Global,
    place: Place,
    purpose: Purpose,
    path: &str,
    query: Option<&str>,
) -> Result<Ask, RequestError>
    ensures { Gives result (asked_at place purpose path.now (option_copied query.entry)) }
{
    match place {
        Place::Status => Ok(Ask::Status),
        Place::ScrapeConfigs => scrape_configs(alloc, query),
        Place::Jobs => Ok(Ask::Jobs),
        Place::Job => job(alloc, path),
        Place::JobTargets => job_targets(alloc, purpose, path, query),
        Place::Uncovered => uncovered(alloc, path),
        Place::Targets => targets(alloc, query),
        Place::Acknowledged => acknowledged(alloc, purpose, query),
        Place::Allocations => Ok(Ask::Allocations),
        Place::Books => books(alloc, query),
        Place::Certificate => Ok(Ask::Certificate),
        Place::Collectors => Ok(collectors(purpose)),
        Place::Collector => collector(alloc, purpose, path),
        Place::Drain => Ok(Ask::Drain(which_collector(alloc, path)?)),
        Place::Release => Ok(Ask::Release(which_collector(alloc, path)?)),
        Place::Limits => Ok(Ask::SetLimits(which_collector(alloc, path)?)),
        Place::Reports => Ok(Ask::Report),
        Place::Healthy => Ok(Ask::Healthy),
        Place::Live => Ok(Ask::Live),
        Place::Ready => Ok(Ask::Ready),
        Place::Leading => Ok(Ask::Leading),
        Place::Metrics => Ok(Ask::Metrics),
        Place::Reload => Ok(Ask::Reload),
        Place::Quit => Ok(Ask::Quit),
    }
}

/// Whether what is asked for is to be shown and not looked at alone.
fn is_show(purpose: Purpose) -> bool
    ensures { result ≡ is_show purpose }
{
    match purpose {
        Purpose::Show => true,
        Purpose::ShowHead | Purpose::Change => false,
    }
}

fn collectors(purpose: Purpose) -> Ask
    ensures { result ≡ collectors_asked purpose }
{
    match purpose {
        Purpose::Change => Ask::Join,
        Purpose::Show | Purpose::ShowHead => Ask::Collectors,
    }
}

fn collector(alloc: Global, purpose: Purpose, path: &str) -> Result<Ask, RequestError>
    ensures { Gives result (collector_asked purpose path.now) }
{
    let collector = which_collector(alloc, path)?;
    match purpose {
        Purpose::Change => Ok(Ask::Leave(collector)),
        Purpose::Show | Purpose::ShowHead => Ok(Ask::Collector(collector)),
    }
}

fn scrape_configs(alloc: Global, query: Option<&str>) -> Result<Ask, RequestError>
    ensures { Gives result (scrape_configs_asked (option_copied query.entry)) }
{
    let rules = flag_of(alloc, query, "rules", false)?;
    Ok(Ask::ScrapeConfigs { rules })
}

fn job(alloc: Global, path: &str) -> Result<Ask, RequestError>
    ensures { Gives result (job_asked path.now) }
{
    let job = decoded(alloc, second_segment(path))?.ok_or(RequestError::Shape)?;
    Ok(Ask::Job(job))
}

fn job_targets(
    alloc: Global,
    purpose: Purpose,
    path: &str,
    query: Option<&str>,
) -> Result<Ask, RequestError>
    ensures { Gives result (job_targets_asked purpose path.now (option_copied query.entry)) }
{
    let job = decoded(alloc, second_segment(path))?.ok_or(RequestError::Shape)?;
    match value_of(alloc, query, "collector_id")? {
        None => Ok(Ask::JobTargets(job)),
        Some(name) => held(alloc, purpose, job, &name, query),
    }
}

fn uncovered(alloc: Global, path: &str) -> Result<Ask, RequestError>
    ensures { Gives result (uncovered_asked path.now) }
{
    let job = decoded(alloc, second_segment(path))?.ok_or(RequestError::Shape)?;
    Ok(Ask::Uncovered(job))
}

fn targets(alloc: Global, query: Option<&str>) -> Result<Ask, RequestError>
    ensures { Gives result (targets_asked (option_copied query.entry)) }
{
    let text = value_of(alloc, query, "search")?.ok_or(RequestError::Shape)?;
    if text.as_str().is_empty() {
        return Err(RequestError::Shape);
    }
    Ok(Ask::FindTargets(text))
}

fn books(alloc: Global, query: Option<&str>) -> Result<Ask, RequestError>
    ensures { Gives result (books_asked (option_copied query.entry)) }
{
    match value_of(alloc, query, "round")? {
        None => Ok(Ask::Books(None)),
        Some(digits) => books_of(digits.as_str()),
    }
}

fn books_of(digits: &str) -> Result<Ask, RequestError>
    ensures { Gives result (books_numbered (decimal_in MOST_OF_32_BITS digits.now)) }
{
    match decimal_of_32_bits(digits.as_bytes()) {
        Some(round) => Ok(Ask::Books(Some(round))),
        None => Err(RequestError::Shape),
    }
}

fn acknowledged(alloc: Global, purpose: Purpose, query: Option<&str>) -> Result<Ask, RequestError>
    ensures { Gives result (acknowledged_asked purpose (option_copied query.entry)) }
{
    let collector = number_of(alloc, query, "collector", MOST_OF_32_BITS)?;
    let collector = collector.ok_or(RequestError::Shape)?;
    let list = number_of(alloc, query, "list", MOST_OF_32_BITS)?;
    let list = list.ok_or(RequestError::Shape)?;
    let epoch = number_of(alloc, query, "epoch", MOST_OF_64_BITS)?;
    let epoch = epoch.ok_or(RequestError::Shape)?;
    let job = value_of(alloc, query, "job")?.ok_or(RequestError::Shape)?;
    let told = Acknowledgement {
        collector: collector as u32,
        job,
        list: list as u32,
        epoch,
    };
    let counts = is_show(purpose);
    Ok(Ask::Acknowledged { told, counts })
}

fn held(
    alloc: Global,
    purpose: Purpose,
    job: Text,
    name: &Text,
    query: Option<&str>,
) -> Result<Ask, RequestError>
    ensures { Gives result (held_asked purpose job name.now (option_copied query.entry)) }
{
    let takes = flag_of(alloc, query, "take", true)?;
    let name = collector_name(alloc, name.as_str())?;
    let takes = is_show(purpose) && takes;
    Ok(Ask::CollectorTargets { job, name, takes })
}

pub(crate) fn collector_name(alloc: Global, text: &str) -> Result<CollectorName, RequestError>
    ensures { Gives result (name_said text.now) }
{
    match CollectorName::read(alloc, text) {
        Ok(name) => Ok(name),
        Err(NameError::BadName) => Err(RequestError::BadName),
        Err(NameError::Memory) => Err(RequestError::Memory),
    }
}

/// The collector that a path means.
fn which_collector(alloc: Global, path: &str) -> Result<WhichCollector, RequestError>
    ensures { Gives result (which_in path.now) }
{
    let segment = second_segment(path);
    if has_only_digits(segment) {
        let id = decimal_of_32_bits(segment.as_bytes()).ok_or(RequestError::Shape)?;
        return Ok(WhichCollector::Number(id));
    }
    let text = decoded(alloc, segment)?.ok_or(RequestError::Shape)?;
    let name = collector_name(alloc, text.as_str())?;
    Ok(WhichCollector::Name(name))
}

fn has_only_digits(segment: &str) -> bool
    ensures { result ≡ list_all is_ascii_digit segment.now }
{
    segment.as_bytes().iter().all(|byte| byte.is_ascii_digit())
}
