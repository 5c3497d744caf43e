//! Entity tags that were made before.
ghost use Rattle.std.specs.Prelude.{◌≡◌, IfOk};
ghost use Rattle.http_header.specs.FieldValue.{plain_value};
ghost use Rattle.entity_tags.specs.Tags.{tag_of, IfTagOf};

use crate::tag::entity_tag;
use crate::tagged_text::TaggedText;
use bytes::Bytes;
use http_header::HeaderValue;
use indexmap::IndexMap;
use std::alloc::{AllocError, Global};
use std::sync::{Arc, Mutex, Wait};

/// So many bytes of either end of a text tell it from others of its length.
const SAMPLE_BYTES: usize = 256;

/// The entity tags of the texts of one edition, kept for the next time that a text is asked for: a text is compared in a fraction of the
/// time in which its digest is made.
#[derive(Drop)]
pub struct KnownTags {
    kept: Mutex<Latest>,
}

#[derive(Drop)]
struct Latest {
    edition: u64,
    tags: IndexMap<(usize, u64), Arc<TaggedText>>,
}

impl KnownTags {
    /// No tags. It takes no memory.
    pub fn new(alloc: Global) -> KnownTags {
        KnownTags {
            kept: Mutex::new(Latest {
                edition: 0,
                tags: IndexMap::new(alloc),
            }),
        }
    }

    /// The entity tag of a text of this edition. It is kept until one of a later edition is asked for; where there is no memory to keep it, it
    /// is made again the next time.
    pub fn tag(
        &self,
        rt: &impl Wait,
        alloc: Global,
        edition: u64,
        text: &Bytes,
    ) -> Result<HeaderValue, AllocError>
        ensures { IfOk result (λ tag. tag ≡ plain_value (tag_of text.now)) }
    {
        let place = place_of(text.as_slice());
        if let Some(known) = self.known(rt, place, text.as_slice())? {
            return Ok(known);
        }
        let tag = entity_tag(alloc, text.as_slice())?;
        if let Ok(made) = tagged(alloc, text, &tag) {
            self.keep(rt, edition, place, made);
        }
        Ok(tag)
    }

    /// The tag of a text, where it is kept. The text is compared without the lock.
    fn known(
        &self,
        rt: &impl Wait,
        place: (usize, u64),
        text: &[u8],
    ) -> Result<Option<HeaderValue>, AllocError>
        ensures { IfOk result (IfTagOf text.now) }
    {
        match self.kept_at(rt, place)? {
            Some(kept) => kept.tag_of(text),
            None => Ok(None),
        }
    }

    fn kept_at(
        &self,
        rt: &impl Wait,
        place: (usize, u64),
    ) -> Result<Option<Arc<TaggedText>>, AllocError> {
        let kept = self.kept.lock(rt);
        match kept.tags.get(&place) {
            Some(text) => Ok(Some(Arc::try_clone(text)?)),
            None => Ok(None),
        }
    }

    /// Keeps a tag, unless there are tags of a later edition. Those of earlier ones go. Without memory it is not kept.
    fn keep(&self, rt: &impl Wait, edition: u64, place: (usize, u64), made: Arc<TaggedText>) {
        let mut kept = self.kept.lock(rt);
        if edition < kept.edition {
            return;
        }
        if edition > kept.edition {
            kept.edition = edition;
            kept.tags.clear();
        }
        let _ = kept.tags.insert(place, made);
    }
}

fn tagged(alloc: Global, text: &Bytes, tag: &HeaderValue) -> Result<Arc<TaggedText>, AllocError>
    requires { tag.now ≡ plain_value (tag_of text.now) }
{
    let made = TaggedText::with_tag(text.clone()?, tag.clone()?);
    Ok(Arc::new(alloc, made)?)
}

/// Where the tag of a text is kept: beside those of other texts of its length and with the same ends, of which the last one is kept.
fn place_of(text: &[u8]) -> (usize, u64) {
    let mut sample: u64 = 0;
    for byte in text.iter().take(SAMPLE_BYTES) {
        sample = mixed(sample, *byte);
    }
    for byte in text.iter().rev().take(SAMPLE_BYTES) {
        sample = mixed(sample, *byte);
    }
    (text.len(), sample)
}

/// A step of FNV-1a.
fn mixed(sample: u64, byte: u8) -> u64 {
    (sample ^ u64::from(byte)).wrapping_mul(1_099_511_628_211)
}
