//! How often the targets of a scrape config are asked, and how long an answer may take.
ghost use Rattle.std.specs.Prelude.{◌≡◌, IfOk, OnOk, option_map};
ghost use Rattle.serde_json.specs.View.{view, members_view};
ghost use Rattle.scrape_pages.specs.Times.{of_global as of_global_data, interval_of_global as interval_of_global_data, interval_of as interval_of_data, length_of as length_of_data, is_longer as is_longer_data, no_longer as no_longer_data, usual_timeout as usual_timeout_data, timeout_of_global as timeout_of_global_data, timeout_of as timeout_of_data, with_times};

use crate::found::text_or;
use serde_json::{Map, Value, put};
use service_settings::duration_of;
use std::alloc::{AllocError, Global};

/// Puts both.
pub(crate) fn put_times(
    alloc: Global,
    document: &Value,
    entry: &Value,
    page: &mut Map<String, Value>,
) -> Result<(), AllocError>
    ensures { OnOk result (members_view page.new.entries ≡ with_times (view document.now) (view entry.now) (members_view page.old.entries)) }
{
    let interval = interval_of(alloc, document, entry)?;
    put(page, alloc, "scrape_interval", interval)?;
    let timeout = timeout_of(alloc, document, entry)?;
    put(page, alloc, "scrape_timeout", timeout)
}

/// The interval of a scrape config: its own, or else that of `global`.
fn interval_of(alloc: Global, document: &Value, entry: &Value) -> Result<Value, AllocError>
    ensures { IfOk result (λ v. view v ≡ interval_of_data (view document.now) (view entry.now)) }
{
    match entry.get("scrape_interval") {
        Some(own) => own.clone(),
        None => interval_of_global(alloc, document),
    }
}

/// The timeout of a scrape config: its own, or else that of `global`, which is not longer than the interval then.
fn timeout_of(alloc: Global, document: &Value, entry: &Value) -> Result<Value, AllocError>
    ensures { IfOk result (λ v. view v ≡ timeout_of_data (view document.now) (view entry.now)) }
{
    match entry.get("scrape_timeout") {
        Some(own) => own.clone(),
        None => timeout_left_out(alloc, document, entry),
    }
}

/// The timeout of a scrape config that has none of its own.
fn timeout_left_out(alloc: Global, document: &Value, entry: &Value) -> Result<Value, AllocError>
    ensures { IfOk result (λ v. view v ≡ no_longer_data (interval_of_data (view document.now) (view entry.now)) (timeout_of_global_data (view document.now))) }
{
    let interval = interval_of(alloc, document, entry)?;
    let timeout = timeout_of_global(alloc, document)?;
    Ok(no_longer(interval, timeout))
}

fn interval_of_global(alloc: Global, document: &Value) -> Result<Value, AllocError>
    ensures { IfOk result (λ v. view v ≡ interval_of_global_data (view document.now)) }
{
    text_or(alloc, of_global(document, "scrape_interval"), "1m")
}

fn timeout_of_global(alloc: Global, document: &Value) -> Result<Value, AllocError>
    ensures { IfOk result (λ v. view v ≡ timeout_of_global_data (view document.now)) }
{
    match of_global(document, "scrape_timeout") {
        Some(own) => own.clone(),
        None => usual_timeout(alloc, document),
    }
}

/// The timeout of a `global` that has none of its own.
fn usual_timeout(alloc: Global, document: &Value) -> Result<Value, AllocError>
    ensures { IfOk result (λ v. view v ≡ usual_timeout_data (view document.now)) }
{
    let interval = interval_of_global(alloc, document)?;
    let timeout = Value::try_from_str(alloc, "10s")?;
    Ok(no_longer(interval, timeout))
}

/// A member of `global`.
fn of_global<'a>(document: &'a Value, name: &str) -> Option<&'a Value>
    ensures { option_map (λ v. view v.now) result ≡ of_global_data name.now (view document.now) }
{
    match document.get("global") {
        Some(global) => global.get(name),
        None => None,
    }
}

/// The timeout, or the interval where that is shorter.
fn no_longer(interval: Value, timeout: Value) -> Value
    ensures { view result ≡ no_longer_data (view interval) (view timeout) }
{
    if is_longer(&timeout, &interval) {
        interval
    } else {
        timeout
    }
}

/// Whether both are durations, and the first is longer.
fn is_longer(value: &Value, other: &Value) -> bool
    ensures { result ≡ is_longer_data (view value.now) (view other.now) }
{
    match (length_of(value), length_of(other)) {
        (Some(length), Some(least)) => least < length,
        (None, _) | (_, None) => false,
    }
}

/// The milliseconds of a duration.
fn length_of(value: &Value) -> Option<u64>
    ensures { result ≡ length_of_data (view value.now) }
{
    match value.as_str() {
        Some(text) => duration_of(text),
        None => None,
    }
}
