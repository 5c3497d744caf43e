//! The readers by name.
use crate::asks::request;
use crate::books_rows::books;
use crate::fleet_pages::{collector, collectors, found};
use crate::job_rows::job_row;
use crate::pages::{job, jobs, targets};
use crate::responses::response;
use crate::scrapes::{get, get_in_job, host, url};
use crate::sessions::{round, session, source, total};
use crate::sources::{refreshes, reply};
use std::alloc::{AllocError, Global};
use std::str;

/// What the reader of a name says of the bytes. None where there is no such reader.
pub(crate) fn said(alloc: Global, name: &str, bytes: &[u8]) -> Result<Option<String>, AllocError> {
    let line = match name {
        "request" => request(alloc, bytes),
        "session" => session(alloc, bytes),
        _ => return said_of_text(alloc, name, str::from_utf8(bytes).unwrap_or("")),
    };
    Ok(Some(line?))
}

fn said_of_text(alloc: Global, name: &str, text: &str) -> Result<Option<String>, AllocError> {
    let line = match name {
        "asked" => url(alloc, text),
        "books_page" => books(alloc, text),
        "collector_page" => collector(alloc, text),
        "collectors_page" => collectors(alloc, text),
        "found_page" => found(alloc, text),
        "get" => get(alloc, text),
        "get_in" => get_in_job(alloc, text),
        "host" => host(alloc, text),
        "job_page" => job(alloc, text),
        "job_row_page" => job_row(alloc, text),
        "jobs_page" => jobs(alloc, text),
        "refreshes" => refreshes(alloc, text),
        "reply" => reply(alloc, text),
        "response" => response(alloc, text),
        "round" => round(alloc, text),
        "source" => source(alloc, text),
        "targets_page" => targets(alloc, text),
        "total" => total(alloc, text),
        _ => return Ok(None),
    };
    Ok(Some(line?))
}
