//! Discovery by files in the document of a configuration.
ghost use Rattle.std.specs.Prelude.{◌≡◌, [], ◌∷◌, ◌++◌, IfOk, OnOk, string_bytes, option_map, unwrap_or, codes};
ghost use Rattle.std.specs.Option.{option_map_or};
ghost use Rattle.serde_json.specs.Find.{get, as_str};
ghost use Rattle.serde_json.specs.Data.{string};
ghost use Rattle.serde_json.specs.View.{view, items_view, members_view};
ghost use Rattle.file_configs.specs.Sources.{items_in as items_in_data, lines_from, url_of as url_of_data, source_of as source_of_data, with_entries as with_entries_data, is_files, others_of as others_of_data, members_with as members_with_data, with_entries_of, job_with as job_with_data, jobs_with as jobs_with_data, with_jobs as with_jobs_data, put_jobs as put_jobs_data, document_with};

use json_values::{LeftOut, members_but};
use serde_json::{Map, Value, put};
use std::alloc::{AllocError, Global};

/// How often files are read where the configuration does not say it.
pub const DEFAULT_REFRESH: &str = "5m";

/// The document of a configuration with each entry of `file_sd_configs` as one of `http_sd_configs`, behind those that its scrape config
/// has. The URL of such a source is `file:` and its paths, a line each. What has another shape stays as it is.
pub fn with_sources(alloc: Global, document: &Value) -> Result<Value, AllocError>
    ensures { IfOk result (λ v. view v ≡ document_with (view document.now)) }
{
    match document.get("scrape_configs").and_then(Value::as_array) {
        Some(jobs) => with_jobs(alloc, document, jobs.as_slice()),
        None => document.clone(),
    }
}

fn with_jobs(alloc: Global, document: &Value, jobs: &[Value]) -> Result<Value, AllocError>
    ensures { IfOk result (λ v. view v ≡ with_jobs_data (view document.now) (items_view jobs.now)) }
{
    let jobs = jobs_with(alloc, jobs)?;
    put_jobs(alloc, document.clone()?, jobs)
}

/// What is an object has this list of jobs.
fn put_jobs(alloc: Global, document: Value, jobs: Vec<Value>) -> Result<Value, AllocError>
    ensures { IfOk result (λ v. view v ≡ put_jobs_data (view document) (items_view jobs.items)) }
{
    match document {
        Value::Object(members) => {
            let mut members = members;
            put(&mut members, alloc, "scrape_configs", Value::Array(jobs))?;
            Ok(Value::Object(members))
        }
        other => Ok(other),
    }
}

fn jobs_with(alloc: Global, jobs: &[Value]) -> Result<Vec<Value>, AllocError>
    ensures { IfOk result (λ v. items_view v.items ≡ jobs_with_data (items_view jobs.now)) }
{
    let mut all = Vec::with_capacity(alloc, jobs.len())?;
    for job in jobs {
        all.push(with_sources_of_job(alloc, job)?)?;
    }
    Ok(all)
}

/// The same of one scrape config.
pub fn with_sources_of_job(alloc: Global, job: &Value) -> Result<Value, AllocError>
    ensures { IfOk result (λ v. view v ≡ job_with_data (view job.now)) }
{
    match job.get("file_sd_configs").and_then(Value::as_array) {
        Some(entries) => with_entries(alloc, job, entries.as_slice()),
        None => job.clone(),
    }
}

fn with_entries(alloc: Global, job: &Value, entries: &[Value]) -> Result<Value, AllocError>
    ensures { IfOk result (λ v. view v ≡ with_entries_of (view job.now) (items_view entries.now)) }
{
    match job.as_object() {
        Some(members) => Ok(Value::Object(members_with(alloc, job, entries, members)?)),
        None => job.clone(),
    }
}

fn members_with(
    alloc: Global,
    job: &Value,
    entries: &[Value],
    members: &Map<String, Value>,
) -> Result<Map<String, Value>, AllocError>
    ensures { IfOk result (λ m. members_view m.entries ≡ members_with_data (view job.now) (items_view entries.now) (members_view members.now.entries)) }
{
    let listed = items_in(job.get("http_sd_configs"));
    let sources = sources_of(alloc, listed, entries)?;
    let mut others = others_of(alloc, members)?;
    put(&mut others, alloc, "http_sd_configs", Value::Array(sources))?;
    Ok(others)
}

/// The items of a list.
fn items_in(found: Option<&Value>) -> &[Value]
    ensures { items_view result.now ≡ items_in_data (option_map (λ v. view v.now) found.entry) }
{
    match found.and_then(Value::as_array) {
        Some(items) => items.as_slice(),
        None => &[],
    }
}

/// The member of the files.
struct FileConfigs;

impl LeftOut for FileConfigs {
    ghost is_left_out = { is_files };

    fn is_left_out(name: &str) -> bool {
        name == "file_sd_configs"
    }
}

/// All members but that of the files.
fn others_of(alloc: Global, members: &Map<String, Value>) -> Result<Map<String, Value>, AllocError>
    ensures { IfOk result (λ m. members_view m.entries ≡ others_of_data (members_view members.now.entries)) }
{
    members_but::<FileConfigs>(alloc, members)
}

/// The sources that are listed, and those of the entries behind them.
fn sources_of(alloc: Global, listed: &[Value], entries: &[Value]) -> Result<Vec<Value>, AllocError>
    ensures { IfOk result (λ v. items_view v.items ≡ with_entries_data (items_view listed.now) (items_view entries.now)) }
{
    let mut all = Vec::new(alloc);
    for source in listed {
        all.push(source.clone()?)?;
    }
    for entry in entries {
        all.push(source_of(alloc, entry)?)?;
    }
    Ok(all)
}

/// The source of an entry.
fn source_of(alloc: Global, entry: &Value) -> Result<Value, AllocError>
    ensures { IfOk result (λ v. view v ≡ source_of_data (view entry.now)) }
{
    let url = url_of(alloc, entry)?;
    let mut members = Map::new(alloc);
    put(&mut members, alloc, "url", Value::String(url))?;
    let interval = interval_of(alloc, entry)?;
    put(&mut members, alloc, "refresh_interval", interval)?;
    Ok(Value::Object(members))
}

/// How often an entry is read.
fn interval_of(alloc: Global, entry: &Value) -> Result<Value, AllocError>
    ensures { IfOk result (λ v. view v ≡ unwrap_or (get (codes "refresh_interval") (view entry.now)) (string (codes "5m"))) }
{
    match entry.get("refresh_interval") {
        Some(own) => own.clone(),
        None => Value::try_from_str(alloc, DEFAULT_REFRESH),
    }
}

fn url_of(alloc: Global, entry: &Value) -> Result<String, AllocError>
    ensures { IfOk result (λ s. string_bytes s ≡ url_of_data (view entry.now)) }
{
    let mut url = String::from_str(alloc, "file:")?;
    for path in items_in(entry.get("files")) {
        push_line(&mut url, path)?;
    }
    Ok(url)
}

/// Adds a text with a line end.
fn push_line(url: &mut String, path: &Value) -> Result<(), AllocError>
    ensures { OnOk result (string_bytes url.new ≡ string_bytes url.old ++ option_map_or (λ text. text ++ 10 ∷ []) (as_str (view path.now)) []) }
{
    if let Some(path) = path.as_str() {
        url.push_str(path)?;
        url.push_str("\n")?;
    }
    Ok(())
}
