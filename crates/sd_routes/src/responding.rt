//! How an answer is written.
ghost use Rattle.std.specs.Prelude.{◌≡◌, [], IfOk, IsOk, OnOk, IsTrue, true, string_bytes};
ghost use Rattle.http.specs.Response.{head_of, body_of};
ghost use Rattle.serde_json.specs.Written.{compact_text};
ghost use Rattle.http_header.specs.FieldValue.{is_visible_text};
ghost use Rattle.sd_routes.specs.Errors.{status_of};
ghost use Rattle.sd_routes.specs.Fields.{document_headers, json_headers, list_headers, media_headers, page_headers, with_accept};
ghost use Rattle.sd_routes.specs.Responses.{IsResponse, IsHead, closing, misshapen_data, refused_headers, refused_text, status_answered, status_said, headers_said, body_said};

use crate::answers_text::{answer_text, answers_text};
use crate::misshapen::misshapen_page;
use crate::notice::Notice;
use crate::request_error::RequestError;
use crate::written_head::WrittenHead;
use bytes::Bytes;
use entity_tags::TaggedText;
use fleet_events::{Answer, Refusal, Round};
use http::header::{
    ALLOW, CONNECTION, CONTENT_SECURITY_POLICY, CONTENT_TYPE, HeaderValue, VARY, WWW_AUTHENTICATE,
    X_CONTENT_TYPE_OPTIONS,
};
use http::response::Parts;
use http::{Response, StatusCode};
use http_body_util::Full;
use http_header::HeaderMap;
use lists::{List, Text};
use std::alloc::{AllocError, Global};

/// What a page for people may load (Content Security Policy Level 3): nothing but the style in it. Its form asks the service itself.
const POLICY: &str =
    "default-src 'none'; style-src 'unsafe-inline'; form-action 'self'; frame-ancestors 'none'";

/// How many fields a response has at most: those of a list, its entity tag and the end of the connection.
const MOST_FIELDS: usize = 12;

/// What a request is answered with.
#[derive(Drop)]
pub enum Said {
    /// What the allocator answers to an event.
    Answer(Answer),
    /// What it answers to some events, one after the other, and the round that is open.
    Answers {
        answers: List<Answer>,
        round: Round,
    },
    /// A page, as its JSON text.
    Page(Text),
    /// The list of a job that a collector has.
    List {
        head: WrittenHead,
        /// The list of groups, as its JSON text.
        groups: TaggedText,
    },
    /// The empty list of a job: whoever asks under the name of a collector that left has nothing to scrape of it.
    Nothing,
    /// The request is refused without an answer of the allocator.
    Refused(RequestError),
    /// The request's body is not of the documented shape, at this member.
    Misshapen(Text),
    /// Something about the service itself.
    Notice(Notice),
    /// What the service counts, in the text exposition format of Prometheus, version 0.0.4.
    Metrics(Text),
    /// A page for people, in HTML.
    Document(Text),
    /// The configuration is read again, and what it changes, in lines of plain text.
    Reloaded(Text),
    /// Why the configuration that was to be read again is not taken, in a line of plain text.
    NotReloaded(Text),
}

/// The response that says it. What is not plain text has the media type `application/json`. Where the request has a body that is not read, the
/// connection can serve no other, and its end is told (RFC 9112, section 9.6).
pub fn answer(alloc: Global, said: Said, closes: bool) -> Result<Response<Full<Bytes>>, AllocError>
    ensures { IfOk result (IsResponse (status_said said) (closing closes (headers_said said)) (body_said said)) }
{
    let response = response_of(alloc, said)?;
    if closes {
        return closed(response);
    }
    Ok(response)
}

/// A response that tells the end of its connection.
fn closed(response: Response<Full<Bytes>>) -> Result<Response<Full<Bytes>>, AllocError>
    ensures head { IfOk result (λ r. (head_of r).status ≡ (head_of response).status) }
    ensures headers { IfOk result (λ r. (head_of r).headers ≡ closing true (head_of response).headers) }
    ensures body { IfOk result (λ r. (body_of r).buf ≡ (body_of response).buf) }
{
    let (mut head, body) = response.into_parts();
    let close = HeaderValue::from_static("close");
    if head.headers.insert(CONNECTION, close).is_err() {
        return Err(AllocError);
    }
    Ok(Response::from_parts(head, body))
}

fn response_of(alloc: Global, said: Said) -> Result<Response<Full<Bytes>>, AllocError>
    ensures { IfOk result (IsResponse (status_said said) (headers_said said) (body_said said)) }
{
    match said {
        Said::Answer(answer) => {
            let head = json_head(alloc, status_of(&answer));
            let text = answer_text(alloc, &answer);
            drop(answer);
            response(head, text)
        }
        Said::Answers { answers, round } => {
            let text = answers_text(alloc, answers.as_slice(), round);
            drop(answers);
            response(json_head(alloc, StatusCode::OK), text)
        }
        Said::Page(text) => response(page_head(alloc), Ok(text.into_string())),
        Said::List { head, groups } => list_response(list_parts(alloc, head), groups),
        Said::Nothing => response(page_head(alloc), String::from_str(alloc, "[]")),
        Said::Refused(error) => {
            let text = refused_text(alloc, error.name());
            response(refused_head(alloc, error), text)
        }
        Said::Misshapen(member) => {
            let text = misshapen_text(alloc, member.as_str());
            drop(member);
            response(json_head(alloc, StatusCode::BAD_REQUEST), text)
        }
        Said::Notice(notice) => {
            let head = head_with(alloc, notice.status(), "text/plain; charset=utf-8");
            response(head, String::from_str(alloc, notice.text()))
        }
        Said::Metrics(text) => {
            let media = "text/plain; version=0.0.4; charset=utf-8";
            let head = head_with(alloc, StatusCode::OK, media);
            response(head, Ok(text.into_string()))
        }
        Said::Document(text) => response(document_head(alloc), Ok(text.into_string())),
        Said::Reloaded(changes) => {
            let head = head_with(alloc, StatusCode::OK, "text/plain; charset=utf-8");
            response(head, Ok(changes.into_string()))
        }
        Said::NotReloaded(fault) => {
            let status = StatusCode::INTERNAL_SERVER_ERROR;
            let head = head_with(alloc, status, "text/plain; charset=utf-8");
            response(head, Ok(fault.into_string()))
        }
    }
}

fn misshapen_text(alloc: Global, member: &str) -> Result<String, AllocError>
    ensures { IfOk result (λ t. string_bytes t ≡ compact_text (misshapen_data member.now)) }
{
    Ok(misshapen_page(alloc, member)?.into_string())
}

/// The status code of an answer of the allocator.
fn status_of(answer: &Answer) -> StatusCode
    ensures { result ≡ status_answered answer.now }
{
    match answer {
        Answer::Not(Refusal::UnknownJob | Refusal::UnknownCollector) => StatusCode::NOT_FOUND,
        Answer::Not(_) => StatusCode::CONFLICT,
        _ => StatusCode::OK,
    }
}

/// The response of a head and a text, if there was memory for both.
fn response(
    head: Result<Parts, AllocError>,
    text: Result<String, AllocError>,
) -> Result<Response<Full<Bytes>>, AllocError>
    ensures memory { IfOk result (λ r. IsOk head × IsOk text) }
    ensures says { IfOk result (λ r. IfOk head (λ h. IfOk text (λ t. IsResponse h.status h.headers (string_bytes t) r))) }
{
    let head = match head {
        Ok(head) => head,
        Err(refused) => {
            drop(text);
            return Err(refused);
        }
    };
    match text.and_then(Bytes::from_string) {
        Ok(body) => Ok(response_with(head, body)),
        Err(refused) => {
            drop(head);
            Err(refused)
        }
    }
}

/// The response of a head, if there was memory for it, and a list.
fn list_response(
    head: Result<Parts, AllocError>,
    groups: TaggedText,
) -> Result<Response<Full<Bytes>>, AllocError>
    ensures memory { IfOk result (λ r. IsOk head) }
    ensures says { IfOk result (λ r. IfOk head (λ h. IsResponse h.status h.headers groups r)) }
{
    match head {
        Ok(head) => Ok(response_with(head, groups.into_text())),
        Err(refused) => {
            drop(groups);
            Err(refused)
        }
    }
}

fn response_with(head: Parts, body: Bytes) -> Response<Full<Bytes>>
    ensures { IsResponse head.status head.headers body result }
{
    Response::from_parts(head, Full::new(body))
}

fn json_head(alloc: Global, status: StatusCode) -> Result<Parts, AllocError>
    ensures { IfOk result (IsHead status json_headers) }
{
    head_with(alloc, status, "application/json")
}

/// A head with a media type.
fn head_with(alloc: Global, status: StatusCode, media: &'static str) -> Result<Parts, AllocError>
    requires { IsTrue (is_visible_text media.now) }
    ensures { IfOk result (IsHead status (media_headers media.now)) }
{
    let fields = media_fields(alloc, media)?;
    Ok(head_of_fields(alloc, status, fields))
}

/// A head with these fields.
fn head_of_fields(alloc: Global, status: StatusCode, fields: HeaderMap) -> Parts
    ensures { IsHead status fields result }
{
    let mut head = Parts::new(alloc);
    head.status = status;
    head.headers = fields;
    head
}

/// The fields that tell a media type. There is room for those of a list.
fn media_fields(alloc: Global, media: &'static str) -> Result<HeaderMap, AllocError>
    requires { IsTrue (is_visible_text media.now) }
    ensures { IfOk result (λ fields. fields ≡ media_headers media.now) }
{
    let mut fields = room(alloc)?;
    let media = HeaderValue::from_static(media);
    if fields.insert(CONTENT_TYPE, media).is_err() {
        return Err(AllocError);
    }
    let no_other = HeaderValue::from_static("nosniff");
    if fields.insert(X_CONTENT_TYPE_OPTIONS, no_other).is_err() {
        return Err(AllocError);
    }
    Ok(fields)
}

/// Room for the fields of a list.
fn room(alloc: Global) -> Result<HeaderMap, AllocError>
    ensures { IfOk result (λ fields. fields ≡ []) }
{
    match HeaderMap::with_capacity(alloc, MOST_FIELDS) {
        Ok(fields) => Ok(fields),
        Err(_) => Err(AllocError),
    }
}

/// The head of a page or a list in JSON.
fn page_head(alloc: Global) -> Result<Parts, AllocError>
    ensures { IfOk result (IsHead 200 page_headers) }
{
    let fields = page_fields(alloc)?;
    Ok(head_of_fields(alloc, StatusCode::OK, fields))
}

/// The fields of a page or a list in JSON.
pub(crate) fn page_fields(alloc: Global) -> Result<HeaderMap, AllocError>
    ensures { IfOk result (λ fields. fields ≡ page_headers) }
{
    let mut fields = media_fields(alloc, "application/json")?;
    push_accept(&mut fields)?;
    Ok(fields)
}

/// What is told has the form that is accepted (RFC 9110, section 12.5.5).
fn push_accept(fields: &mut HeaderMap) -> Result<(), AllocError>
    ensures { OnOk result (fields.new ≡ with_accept fields.old) }
{
    let accept = HeaderValue::from_static("accept");
    match fields.insert(VARY, accept) {
        Ok(_) => Ok(()),
        Err(_) => Err(AllocError),
    }
}

/// The head of a page for people. The page may load nothing, and has its style in itself.
fn document_head(alloc: Global) -> Result<Parts, AllocError>
    ensures { IfOk result (IsHead 200 document_headers) }
{
    let mut head = head_with(alloc, StatusCode::OK, "text/html; charset=utf-8")?;
    let policy = HeaderValue::from_static(POLICY);
    if head
        .headers
        .insert(CONTENT_SECURITY_POLICY, policy)
        .is_err()
    {
        return Err(AllocError);
    }
    push_accept(&mut head.headers)?;
    Ok(head)
}

fn refused_head(alloc: Global, error: RequestError) -> Result<Parts, AllocError>
    ensures { IfOk result (IsHead (status_of error) (refused_headers error)) }
{
    let mut head = json_head(alloc, error.status())?;
    match error {
        RequestError::Method(place) => {
            let allowed = HeaderValue::from_static(place.allowed());
            if head.headers.insert(ALLOW, allowed).is_err() {
                return Err(AllocError);
            }
        }
        RequestError::Token => {
            let scheme = HeaderValue::from_static("Bearer");
            if head.headers.insert(WWW_AUTHENTICATE, scheme).is_err() {
                return Err(AllocError);
            }
        }
        _ => {}
    }
    Ok(head)
}

/// The head of the response that gives a list.
fn list_parts(alloc: Global, head: WrittenHead) -> Result<Parts, AllocError>
    ensures { IfOk result (IsHead 200 (list_headers head)) }
{
    let fields = head.into_fields(alloc)?;
    Ok(head_of_fields(alloc, StatusCode::OK, fields))
}

/// The object that tells a refusal.
fn refused_text(alloc: Global, name: &str) -> Result<String, AllocError>
    ensures { IfOk result (λ t. string_bytes t ≡ refused_text name.now) }
{
    let mut text = String::from_str(alloc, "{\"refused\":\"")?;
    text.push_str(name)?;
    text.push_str("\"}")?;
    Ok(text)
}
