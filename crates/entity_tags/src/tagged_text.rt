//! A text beside its entity tag.
ghost use Rattle.std.specs.Prelude.{◌≡◌, IfOk};
ghost use Rattle.http_header.specs.FieldValue.{plain_value};
ghost use Rattle.entity_tags.specs.Tags.{tag_of, IfTagOf};

use crate::tag::entity_tag;
use bytes::Bytes;
use http_header::HeaderValue;
use std::alloc::{AllocError, Global};
use std::marker::Model;

/// A text beside its entity tag, where that was made. Contracts see the text.
#[derive(Drop)]
pub struct TaggedText {
    text: Bytes,
    tag: Option<HeaderValue>,
}

impl Model for TaggedText {
    ghost use Rattle.std.specs.Prelude.{ℕ, List};
    ghost use Rattle.entity_tags.specs.Tags.{IfTagOf};

    ghost Value = { List ℕ };

    ghost view = { λ t. t.text };

    ghost invariant = { λ t. IfTagOf t.text t.tag };
}

impl TaggedText {
    /// A text whose tag was not made. It takes no memory.
    pub fn untagged(text: Bytes) -> TaggedText
        ensures { result ≡ text }
    {
        TaggedText { text, tag: None }
    }

    /// A text with its tag.
    pub fn tagged(alloc: Global, text: Bytes) -> Result<TaggedText, AllocError>
        ensures { IfOk result (λ t. t ≡ text) }
    {
        match entity_tag(alloc, text.as_slice()) {
            Ok(tag) => Ok(TaggedText {
                text,
                tag: Some(tag),
            }),
            Err(refused) => {
                drop(text);
                Err(refused)
            }
        }
    }

    /// A text with the tag that was made of it.
    pub(crate) fn with_tag(text: Bytes, tag: HeaderValue) -> TaggedText
        requires { tag ≡ plain_value (tag_of text) }
        ensures { result ≡ text }
    {
        TaggedText {
            text,
            tag: Some(tag),
        }
    }

    /// Whether its tag was made.
    pub fn is_tagged(&self) -> bool {
        self.tag.is_some()
    }

    /// The bytes of the text.
    pub fn as_slice(&self) -> &[u8]
        ensures { result.now ≡ self.now }
    {
        self.text.as_slice()
    }

    /// The text.
    pub fn text(&self) -> &Bytes
        ensures { result.now ≡ self.now }
    {
        &self.text
    }

    /// The text, without its tag.
    pub fn into_text(self) -> Bytes
        ensures { result ≡ self }
    {
        self.text
    }

    /// The same text with the same tag. It shares the bytes.
    pub fn again(&self) -> Result<TaggedText, AllocError>
        ensures { IfOk result (λ t. t ≡ self.now) }
    {
        let tag = self.tag()?;
        match self.text.clone() {
            Ok(text) => Ok(TaggedText { text, tag }),
            Err(refused) => {
                drop(tag);
                Err(refused)
            }
        }
    }

    /// Its tag, where that was made.
    pub fn tag(&self) -> Result<Option<HeaderValue>, AllocError>
        ensures { IfOk result (IfTagOf self.now) }
    {
        match &self.tag {
            Some(tag) => Ok(Some(tag.clone()?)),
            None => Ok(None),
        }
    }

    /// Its tag, where that was made, and where it is that of this text.
    pub(crate) fn tag_of(&self, text: &[u8]) -> Result<Option<HeaderValue>, AllocError>
        ensures { IfOk result (IfTagOf text.now) }
    {
        if self.text.as_slice() != text {
            return Ok(None);
        }
        self.tag()
    }
}
