//! The entity tags of lists, which may be known.
ghost use Rattle.std.specs.Prelude.{◌≡◌, IfOk};
ghost use Rattle.http_header.specs.FieldValue.{plain_value};
ghost use Rattle.entity_tags.specs.Tags.{tag_of};

use bytes::Bytes;
use entity_tags::{KnownTags, TaggedText, entity_tag};
use http_header::HeaderValue;
use sd_routes::ListHead;
use std::alloc::{AllocError, Global};
use std::sync::{Arc, Wait};

/// The entity tags of the lists that collectors took.
#[derive(Drop)]
pub struct ListTags<R> {
    pub rt: R,
    pub known: Arc<KnownTags>,
}

/// The entity tag of a list with this head.
pub(crate) fn list_tag<R: Wait>(
    alloc: Global,
    tags: &Option<ListTags<R>>,
    head: &ListHead,
    groups: &TaggedText,
) -> Result<HeaderValue, AllocError>
    ensures { IfOk result (λ tag. tag ≡ plain_value (tag_of groups.now)) }
{
    match groups.tag()? {
        Some(tag) => Ok(tag),
        None => found_tag(alloc, tags, head, groups.text()),
    }
}

/// The entity tag of a text, which may be known.
fn found_tag<R: Wait>(
    alloc: Global,
    tags: &Option<ListTags<R>>,
    head: &ListHead,
    groups: &Bytes,
) -> Result<HeaderValue, AllocError>
    ensures { IfOk result (λ tag. tag ≡ plain_value (tag_of groups.now)) }
{
    match tags {
        Some(tags) => {
            let edition = u64::from(head.allocation);
            tags.known.tag(&tags.rt, alloc, edition, groups)
        }
        None => entity_tag(alloc, groups.as_slice()),
    }
}
