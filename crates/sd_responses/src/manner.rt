//! How a reply is written.
ghost use Rattle.std.specs.Prelude.{◌≡◌, ◌&&◌, IfOk, None, Some, false, true};
ghost use Rattle.http.specs.Response.{head_of, body_of};
ghost use Rattle.http_header.specs.FieldValue.{FieldValue};
ghost use Rattle.sd_routes.specs.Responses.{IsResponse};
ghost use Rattle.sd_responses.specs.Writing.{fields_said, tag_said, tagged, IsKnown, WritesTagged, Writes};

use crate::accept::wants_yaml;
use crate::list_tags::{ListTags, list_tag};
use crate::yaml::{as_yaml, is_page};
use admission::has_body;
use bytes::Bytes;
use entity_tags::is_shown;
use http::header::{ETAG, HeaderValue, IF_NONE_MATCH};
use http::{Response, StatusCode};
use http_body_util::Full;
use http_header::HeaderMap;
use sd_routes::{Said, answer};
use std::alloc::{AllocError, Global};
use std::sync::Wait;

/// How a reply is written.
#[derive(Drop)]
pub struct Manner {
    /// Whether there is a body that is not read.
    pub closes: bool,
    /// Whether a page is told as YAML.
    pub is_yaml: bool,
    /// The entity tags of what whoever asks has.
    pub shown: Option<HeaderValue>,
}

impl Manner {
    /// That of a reply to a request with this head, whose body is not read.
    pub fn of(fields: &HeaderMap) -> Manner {
        Manner {
            closes: has_body(fields),
            is_yaml: wants_yaml(fields),
            shown: shown_tags(fields),
        }
    }

    /// That of a reply to whom nothing is known of, after which the connection ends or goes on.
    pub fn plain(closes: bool) -> Manner
        ensures { result ≡ record { closes = closes; is_yaml = false; shown = None } }
    {
        Manner {
            closes,
            is_yaml: false,
            shown: None,
        }
    }

    /// The response that says it. A list has an entity tag, and is not sent again to who has it (RFC 9110, section 15.4.5).
    pub fn written<R: Wait>(
        &self,
        alloc: Global,
        tags: &Option<ListTags<R>>,
        said: Said,
    ) -> Result<Response<Full<Bytes>>, AllocError>
        ensures { IfOk result (Writes self.now said) }
    {
        let is_yaml = self.is_yaml && is_page(&said);
        let tag = self.tag(alloc, tags, &said)?;
        let response = answer(alloc, said, self.closes)?;
        match tag {
            Some(tag) => self.tagged(response, tag),
            None if is_yaml => as_yaml(response),
            None => Ok(response),
        }
    }

    /// The entity tag of a list that is told as JSON.
    fn tag<R: Wait>(
        &self,
        alloc: Global,
        tags: &Option<ListTags<R>>,
        said: &Said,
    ) -> Result<Option<HeaderValue>, AllocError>
        ensures { IfOk result (λ t. t ≡ tag_said self.now.is_yaml said.now) }
    {
        match said {
            Said::List { head, groups } if !self.is_yaml => {
                Ok(Some(list_tag(alloc, tags, &head.told(), groups)?))
            }
            _ => Ok(None),
        }
    }

    /// The response with this entity tag, and without its body where the tag is shown.
    fn tagged(
        &self,
        response: Response<Full<Bytes>>,
        tag: HeaderValue,
    ) -> Result<Response<Full<Bytes>>, AllocError>
        ensures { IfOk result (WritesTagged self.now.shown tag response) }
    {
        let is_known = self.is_known(&tag);
        let (mut head, body) = response.into_parts();
        if head.headers.insert(ETAG, tag).is_err() {
            return Err(AllocError);
        }
        if is_known {
            head.status = StatusCode::NOT_MODIFIED;
            return Ok(Response::from_parts(head, Full::new(Bytes::new())));
        }
        Ok(Response::from_parts(head, body))
    }

    fn is_known(&self, tag: &HeaderValue) -> bool
        ensures { result ≡ true → IsKnown self.now.shown (Some tag.now) }
    {
        match &self.shown {
            Some(shown) if is_shown(shown, tag) => true,
            _ => false,
        }
    }
}

/// The entity tags that a head shows. Where there is no memory to keep them, none.
fn shown_tags(fields: &HeaderMap) -> Option<HeaderValue> {
    match fields.get(IF_NONE_MATCH) {
        Some(shown) => shown.clone().ok(),
        None => None,
    }
}
