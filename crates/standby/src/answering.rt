//! What is answered while an instance stands by.
use crate::reply::Reply;
use crate::standing::Standing;
use admission::has_body;
use bytes::Bytes;
use http::header::{
    CONNECTION, CONTENT_TYPE, HeaderName, HeaderValue, LOCATION, X_CONTENT_TYPE_OPTIONS,
};
use http::request::Parts as Head;
use http::response::Parts;
use http::{Response, StatusCode, Uri};
use http_body_util::Full;
use lists::Text;
use sd_routes::{Ask, Notice, RequestError, Routes, Said, answer, route};
use std::alloc::{AllocError, Global};
use std::sync::Wait;

/// The response to a request with this head, whose body is not read.
pub(crate) fn response_to<R: Wait>(
    rt: &R,
    alloc: Global,
    standing: &Standing,
    routes: &Routes,
    head: &Head,
) -> Result<Response<Full<Bytes>>, AllocError> {
    let closes = has_body(&head.headers);
    match reply_to(rt, alloc, standing, routes, head)? {
        Reply::Said(said) => answer(alloc, said, closes),
        Reply::Line(line) => line_response(alloc, StatusCode::OK, line, closes),
        Reply::Unavailable(line) => {
            line_response(alloc, StatusCode::SERVICE_UNAVAILABLE, line, closes)
        }
        Reply::Elsewhere(url) => redirect(alloc, url, closes),
    }
}

/// What a request is answered with: it is refused as by who leads, or told what this instance can tell, or sent there.
fn reply_to<R: Wait>(
    rt: &R,
    alloc: Global,
    standing: &Standing,
    routes: &Routes,
    head: &Head,
) -> Result<Reply, AllocError> {
    match asked(alloc, standing, routes, head) {
        Ok(ask) => {
            let reply = told(rt, alloc, standing, &ask, &head.uri);
            drop(ask);
            reply
        }
        Err(RequestError::Memory) => Err(AllocError),
        Err(error) => Ok(Reply::Said(Said::Refused(error))),
    }
}

/// What a request asks for, where it is let in.
fn asked(
    alloc: Global,
    standing: &Standing,
    routes: &Routes,
    head: &Head,
) -> Result<Ask, RequestError> {
    match route(routes, alloc, &head.method, &head.uri) {
        Ok(ask) => match standing.doors.refusal(Some(&ask), &head.headers) {
            Some(error) => {
                drop(ask);
                Err(error)
            }
            None => Ok(ask),
        },
        Err(RequestError::Memory) => Err(RequestError::Memory),
        Err(missing) => match standing.doors.refusal(None, &head.headers) {
            Some(error) => Err(error),
            None => Err(missing),
        },
    }
}

/// What is told to a request that is let in.
fn told<R: Wait>(
    rt: &R,
    alloc: Global,
    standing: &Standing,
    ask: &Ask,
    target: &Uri,
) -> Result<Reply, AllocError> {
    match ask {
        Ask::Healthy | Ask::Live => Ok(noticed(Notice::Healthy)),
        Ask::Ready => Ok(noticed(readiness(rt, standing))),
        Ask::Leading => Ok(Reply::Unavailable(leading_line(rt, alloc, standing)?)),
        Ask::Metrics => {
            let page = standing.metrics(rt, alloc)?;
            Ok(Reply::Said(Said::Metrics(Text::from_string(page))))
        }
        Ask::Status => Ok(Reply::Line(leading_line(rt, alloc, standing)?)),
        Ask::Reload => reloaded(alloc, standing),
        Ask::Quit => Ok(noticed(quit(standing))),
        _ => elsewhere(rt, alloc, standing, target),
    }
}

fn noticed(notice: Notice) -> Reply {
    Reply::Said(Said::Notice(notice))
}

/// Whether this instance has read once all that is kept, so that it can take over.
fn readiness<R: Wait>(rt: &R, standing: &Standing) -> Notice {
    if standing.is_ready(rt) {
        Notice::Ready
    } else {
        Notice::NotReady
    }
}

/// The configuration is read at a take-over, so there is nothing to do now.
fn reloaded(alloc: Global, standing: &Standing) -> Result<Reply, AllocError> {
    if !standing.lifecycle.reload {
        return Ok(noticed(Notice::NoLifecycle));
    }
    let line = Text::from_str(
        alloc,
        "This instance stands by: it reads its configuration when it takes over.\n",
    )?;
    Ok(Reply::Said(Said::Reloaded(line)))
}

/// Ends the instance, where a request may.
fn quit(standing: &Standing) -> Notice {
    if !standing.lifecycle.quit {
        return Notice::NoLifecycle;
    }
    standing.quit();
    Notice::Quitting
}

/// Where the same is to be asked.
fn elsewhere<R: Wait>(
    rt: &R,
    alloc: Global,
    standing: &Standing,
    target: &Uri,
) -> Result<Reply, AllocError> {
    match standing.leader(rt)? {
        Some(leader) => {
            let url = url_at(alloc, leader.as_str(), target);
            drop(leader);
            Ok(Reply::Elsewhere(url?))
        }
        None => Ok(Reply::Unavailable(leading_line(rt, alloc, standing)?)),
    }
}

fn url_at(alloc: Global, leader: &str, target: &Uri) -> Result<Text, AllocError> {
    let path = target.path();
    let url = match target.query() {
        Some(query) => format!(in alloc; "{leader}{path}?{query}"),
        None => format!(in alloc; "{leader}{path}"),
    };
    Ok(Text::from_string(url?))
}

/// The line that tells who leads.
fn leading_line<R: Wait>(rt: &R, alloc: Global, standing: &Standing) -> Result<Text, AllocError> {
    let version = standing.version;
    match standing.leader(rt)? {
        Some(leader) => {
            let who = leader.as_str();
            let line = format!(in alloc; "allocd {version} stands by; {who} leads.\n");
            drop(leader);
            Ok(Text::from_string(line?))
        }
        None => Ok(Text::from_string(format!(in alloc;
            "allocd {version} stands by; nobody leads.\n"
        )?)),
    }
}

/// The response that sends to a URL.
fn redirect(alloc: Global, url: Text, closes: bool) -> Result<Response<Full<Bytes>>, AllocError> {
    match HeaderValue::from_str(alloc, url.as_str()) {
        Ok(location) => {
            let head = redirect_head(alloc, location, closes)?;
            let line = Bytes::from_static(b"This instance stands by.\n");
            Ok(Response::from_parts(head, Full::new(line)))
        }
        Err(_) => {
            let line = Text::from_str(alloc, "This instance stands by.\n")?;
            line_response(alloc, StatusCode::SERVICE_UNAVAILABLE, line, closes)
        }
    }
}

fn redirect_head(alloc: Global, location: HeaderValue, closes: bool) -> Result<Parts, AllocError> {
    match head_with(alloc, StatusCode::TEMPORARY_REDIRECT, closes) {
        Ok(mut head) => {
            insert(&mut head, LOCATION, location)?;
            Ok(head)
        }
        Err(error) => {
            drop(location);
            Err(error)
        }
    }
}

fn line_response(
    alloc: Global,
    status: StatusCode,
    line: Text,
    closes: bool,
) -> Result<Response<Full<Bytes>>, AllocError> {
    let line = Bytes::from_string(line.into_string())?;
    match head_with(alloc, status, closes) {
        Ok(head) => Ok(Response::from_parts(head, Full::new(line))),
        Err(error) => {
            drop(line);
            Err(error)
        }
    }
}

/// A head of plain text. Where the request has a body that is not read, the connection can serve no other.
fn head_with(alloc: Global, status: StatusCode, closes: bool) -> Result<Parts, AllocError> {
    let mut head = Parts::new(alloc);
    head.status = status;
    let media = HeaderValue::from_static("text/plain; charset=utf-8");
    insert(&mut head, CONTENT_TYPE, media)?;
    let no_other = HeaderValue::from_static("nosniff");
    insert(&mut head, X_CONTENT_TYPE_OPTIONS, no_other)?;
    if closes {
        insert(&mut head, CONNECTION, HeaderValue::from_static("close"))?;
    }
    Ok(head)
}

fn insert(head: &mut Parts, name: HeaderName, value: HeaderValue) -> Result<(), AllocError> {
    match head.headers.insert(name, value) {
        Ok(_) => Ok(()),
        Err(_) => Err(AllocError),
    }
}
