//! What is answered to a request.
ghost use Rattle.std.specs.Prelude.{IsTrue};
ghost use Rattle.http_header.specs.FieldValue.{is_visible_text};

use crate::counts::count_one;
use crate::list_store::{Found, ListStore};
use crate::metrics::metrics_page;
use bytes::Bytes;
use http::response::Parts;
use http::{Response, StatusCode};
use http_body_util::Full;
use http_header::{CONTENT_TYPE, HOST, HeaderMap, HeaderValue};
use percent_encoding::{DecodeError, percent_decode};
use std::alloc::{AllocError, Global};
use std::sync::Wait;
use std::time::Clock;

/// What a request asks for.
#[derive(Clone, Copy)]
enum Wanted<'a> {
    /// The list of a job, by the segment that stands for it.
    List(&'a str),
    Health,
    Metrics,
    /// Nothing that is here.
    Nothing,
    /// It is no GET.
    Method,
    /// It is asked under a name that is not this machine's alone.
    Host,
}

/// The response to a request of this method and path, with these headers.
pub(crate) fn response_to<R: Wait + Clock>(
    rt: &R,
    alloc: Global,
    store: &ListStore,
    method: &str,
    path: &str,
    fields: &HeaderMap,
) -> Result<Response<Full<Bytes>>, AllocError> {
    match wanted_by(method, path, fields) {
        Wanted::List(segment) => list_response(rt, alloc, store, segment),
        Wanted::Health => plain(alloc, StatusCode::OK, b"allocd agent is healthy.\n"),
        Wanted::Metrics => metrics_response(alloc, store),
        Wanted::Nothing => plain(alloc, StatusCode::NOT_FOUND, b"There is nothing here.\n"),
        Wanted::Method => plain(
            alloc,
            StatusCode::METHOD_NOT_ALLOWED,
            b"It can only be asked with GET.\n",
        ),
        Wanted::Host => plain(
            alloc,
            StatusCode::FORBIDDEN,
            b"It can only be asked as localhost, or by an address that begins with 127.\n",
        ),
    }
}

fn wanted_by<'a>(method: &str, path: &'a str, fields: &HeaderMap) -> Wanted<'a> {
    if !is_own_host(fields) {
        return Wanted::Host;
    }
    if method != "GET" {
        return Wanted::Method;
    }
    match path {
        "/-/healthy" => Wanted::Health,
        "/metrics" => Wanted::Metrics,
        _ => match job_in(path) {
            Some(segment) => Wanted::List(segment),
            None => Wanted::Nothing,
        },
    }
}

/// The segment of a list's path that stands for the job.
fn job_in(path: &str) -> Option<&str> {
    path.strip_prefix("/jobs/")?.strip_suffix("/targets")
}

/// Whether a head names a host that is this machine alone.
fn is_own_host(fields: &HeaderMap) -> bool {
    match fields.get(HOST) {
        Some(host) => {
            let host = host.as_bytes();
            host.starts_with(b"127.") || host.starts_with(b"localhost")
        }
        None => false,
    }
}

fn list_response<R: Wait + Clock>(
    rt: &R,
    alloc: Global,
    store: &ListStore,
    segment: &str,
) -> Result<Response<Full<Bytes>>, AllocError> {
    let now = millis_now(rt);
    match found_for(rt, alloc, store, segment, now)? {
        Found::List(list) => {
            count_one(&store.counts.lists);
            response(alloc, StatusCode::OK, "application/json", list)
        }
        Found::Unknown => plain(
            alloc,
            StatusCode::SERVICE_UNAVAILABLE,
            b"The allocator was not heard yet.\n",
        ),
        Found::NoJob => plain(
            alloc,
            StatusCode::NOT_FOUND,
            b"The allocator has no such job.\n",
        ),
    }
}

/// What is served of the job that a segment stands for.
fn found_for<R: Wait>(
    rt: &R,
    alloc: Global,
    store: &ListStore,
    segment: &str,
    now: u64,
) -> Result<Found, AllocError> {
    match percent_decode(segment.as_bytes()).decode_utf8(alloc) {
        Ok(job) => store.find(rt, alloc, job.into_owned(alloc)?.as_str(), now),
        Err(DecodeError::OutOfMemory) => Err(AllocError),
        Err(DecodeError::Utf8(_)) => Ok(Found::NoJob),
    }
}

/// The time in milliseconds since 1970, 0 where no clock tells.
fn millis_now<R: Clock>(rt: &R) -> u64 {
    match rt.since_1970() {
        Ok(now) => u64::try_from(now.as_millis()).unwrap_or(u64::MAX),
        Err(_) => 0,
    }
}

fn metrics_response(alloc: Global, store: &ListStore) -> Result<Response<Full<Bytes>>, AllocError> {
    let page = Bytes::from_string(metrics_page(alloc, &store.counts)?)?;
    response(
        alloc,
        StatusCode::OK,
        "text/plain; version=0.0.4; charset=utf-8",
        page,
    )
}

fn plain(
    alloc: Global,
    status: StatusCode,
    line: &'static [u8],
) -> Result<Response<Full<Bytes>>, AllocError> {
    response(
        alloc,
        status,
        "text/plain; charset=utf-8",
        Bytes::from_static(line),
    )
}

fn response(
    alloc: Global,
    status: StatusCode,
    media: &'static str,
    body: Bytes,
) -> Result<Response<Full<Bytes>>, AllocError>
    requires { IsTrue (is_visible_text media.now) }
{
    let mut head = Parts::new(alloc);
    head.status = status;
    let media = HeaderValue::from_static(media);
    if head.headers.insert(CONTENT_TYPE, media).is_err() {
        return Err(AllocError);
    }
    Ok(Response::from_parts(head, Full::new(body)))
}
