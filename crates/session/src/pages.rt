//! The pages of a session.
ghost use Rattle.std.specs.Prelude.{◌≡◌, IfOk, codes};
ghost use Rattle.serde_json.specs.View.{view, items_view};
ghost use Rattle.json_values.specs.Spelling.{all_in, list_in, member_in};
ghost use Rattle.session.specs.Documents.{page_in as page_said, status_of as status_said};

use json_values::{member, number};
use lists::{List, Text};
use serde_json::Value;
use std::alloc::{AllocError, Global};

/// What is answered to a request for one path.
#[derive(Drop)]
pub struct Page {
    pub path: Text,
    /// The status code, from 100 to 999.
    pub status: u16,
    /// The field `content-type`.
    pub media: Text,
    pub body: Text,
}

pub(crate) fn pages_in(alloc: Global, document: &Value) -> Result<Option<List<Page>>, AllocError>
    ensures { IfOk result (λ o. o ≡ member_in (list_in page_said) (codes "serve") (view document.now)) }
{
    match document.get("serve").and_then(Value::as_array) {
        Some(pages) => each_page(alloc, pages.as_slice()),
        None => Ok(None),
    }
}

fn each_page(alloc: Global, values: &[Value]) -> Result<Option<List<Page>>, AllocError>
    ensures { IfOk result (λ o. o ≡ all_in page_said (items_view values.now)) }
{
    let mut pages = List::new(alloc);
    for value in values {
        let Some(page) = page_in(alloc, value)? else {
            return Ok(None);
        };
        pages.push(page)?;
    }
    Ok(Some(pages))
}

#[tactic(auto, unfolding(crate::specs::Documents::page_in))]
fn page_in(alloc: Global, value: &Value) -> Result<Option<Page>, AllocError>
    ensures { IfOk result (λ o. o ≡ page_said (view value.now)) }
{
    let Some(path) = member(alloc, value, "path")? else {
        return Ok(None);
    };
    let Some(status) = status_in(value) else {
        return Ok(None);
    };
    let Some(media) = member(alloc, value, "media")? else {
        return Ok(None);
    };
    let Some(body) = member(alloc, value, "body")? else {
        return Ok(None);
    };
    Ok(Some(Page {
        path,
        status,
        media,
        body,
    }))
}

fn status_in(value: &Value) -> Option<u16>
    ensures { result ≡ member_in status_said (codes "status") (view value.now) }
{
    let status = number(value.get("status")?)?;
    if status >= 100 && status < 1_000 {
        Some(status as u16)
    } else {
        None
    }
}
