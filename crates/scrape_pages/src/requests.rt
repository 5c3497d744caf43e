//! What each page says of a scrape, in the place of Prometheus where a scrape config does not.
ghost use Rattle.std.specs.Prelude.{◌≡◌, IfOk, OnOk, option_map};
ghost use Rattle.serde_json.specs.Data.{put as put_data};
ghost use Rattle.serde_json.specs.View.{view, members_view};
ghost use Rattle.scrape_pages.specs.Found.{text_or as text_or_data};
ghost use Rattle.scrape_pages.specs.Requests.{labels_of as labels_of_data, with_request};

use crate::found::text_or;
use serde_json::{Map, Value, put};
use std::alloc::{AllocError, Global};

/// Puts what is asked for, and what becomes of the labels that are answered.
pub(crate) fn put_request(
    alloc: Global,
    entry: &Value,
    page: &mut Map<String, Value>,
) -> Result<(), AllocError>
    ensures { OnOk result (members_view page.new.entries ≡ with_request (view entry.now) (members_view page.old.entries)) }
{
    put_text(
        alloc,
        page,
        "metrics_path",
        entry.get("metrics_path"),
        "/metrics",
    )?;
    put_text(alloc, page, "scheme", entry.get("scheme"), "http")?;
    let labels = labels_of(entry)?;
    put(page, alloc, "honor_labels", labels)
}

/// Puts what was found at a name, or else this text.
fn put_text(
    alloc: Global,
    page: &mut Map<String, Value>,
    name: &str,
    found: Option<&Value>,
    text: &str,
) -> Result<(), AllocError>
    ensures { OnOk result (members_view page.new.entries
        ≡ put_data name.now (text_or_data text.now (option_map (λ v. view v.now) found.entry)) (members_view page.old.entries)) }
{
    let value = text_or(alloc, found, text)?;
    put(page, alloc, name, value)
}

/// Whether the labels of an answer stand, where they are those of its target too.
fn labels_of(entry: &Value) -> Result<Value, AllocError>
    ensures { IfOk result (λ v. view v ≡ labels_of_data (view entry.now)) }
{
    match entry.get("honor_labels") {
        Some(own) => own.clone(),
        None => Ok(Value::Bool(false)),
    }
}
