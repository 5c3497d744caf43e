//! A page for each scrape config, under the name of its job.
ghost use Rattle.std.specs.Prelude.{◌≡◌, IfOk, OnOk};
ghost use Rattle.serde_json.specs.Data.{no_members};
ghost use Rattle.serde_json.specs.View.{view, items_view, members_view};
ghost use Rattle.scrape_pages.specs.Pages.{entries_of as entries_of_data, with_page, with_named, with_pages, page_of, collectors_configs_of};

use crate::kept::kept;
use crate::requests::put_request;
use crate::times::put_times;
use serde_json::{Map, Value, put};
use std::alloc::{AllocError, Global};

/// The scrape configs of a configuration as its collectors are to use them: an object with a member for each scrape config, under the name
/// of its job. Targets are found and relabelled before collectors have them, so no page says how; and what each scrape needs stands in the
/// page itself (<https://prometheus.io/docs/prometheus/latest/configuration/configuration/#scrape_config>). What is no object with a name
/// has no page.
pub fn collectors_configs(alloc: Global, document: &Value) -> Result<Value, AllocError>
    ensures { IfOk result (λ v. view v ≡ collectors_configs_of (view document.now)) }
{
    let pages = pages_of(alloc, document, entries_of(document))?;
    Ok(Value::Object(pages))
}

/// The entries of `scrape_configs`.
fn entries_of(document: &Value) -> &[Value]
    ensures { items_view result.now ≡ entries_of_data (view document.now) }
{
    match document.get("scrape_configs").and_then(Value::as_array) {
        Some(entries) => entries.as_slice(),
        None => &[],
    }
}

/// The pages of these entries.
fn pages_of(
    alloc: Global,
    document: &Value,
    entries: &[Value],
) -> Result<Map<String, Value>, AllocError>
    ensures { IfOk result (λ m. members_view m.entries ≡ with_pages (view document.now) no_members (items_view entries.now)) }
{
    let mut pages = Map::new(alloc);
    for entry in entries {
        put_page(alloc, document, &mut pages, entry)?;
    }
    Ok(pages)
}

/// Puts the page of an entry under its name.
fn put_page(
    alloc: Global,
    document: &Value,
    pages: &mut Map<String, Value>,
    entry: &Value,
) -> Result<(), AllocError>
    ensures { OnOk result (members_view pages.new.entries ≡ with_page (view document.now) (members_view pages.old.entries) (view entry.now)) }
{
    match entry.get("job_name").and_then(Value::as_str) {
        Some(name) => put_named(alloc, document, pages, name, entry),
        None => Ok(()),
    }
}

/// Puts the page of an entry under this name, if the entry is an object.
fn put_named(
    alloc: Global,
    document: &Value,
    pages: &mut Map<String, Value>,
    name: &str,
    entry: &Value,
) -> Result<(), AllocError>
    ensures { OnOk result (members_view pages.new.entries ≡ with_named (view document.now) (members_view pages.old.entries) name.now (view entry.now)) }
{
    match entry.as_object() {
        Some(members) => {
            let page = page(alloc, document, entry, members)?;
            put(pages, alloc, name, Value::Object(page))
        }
        None => Ok(()),
    }
}

/// The page of a scrape config that has these members.
fn page(
    alloc: Global,
    document: &Value,
    entry: &Value,
    members: &Map<String, Value>,
) -> Result<Map<String, Value>, AllocError>
    ensures { IfOk result (λ m. members_view m.entries ≡ page_of (view document.now) (view entry.now) (members_view members.now.entries)) }
{
    let mut page = kept(alloc, members)?;
    put_request(alloc, entry, &mut page)?;
    put_times(alloc, document, entry, &mut page)?;
    Ok(page)
}
