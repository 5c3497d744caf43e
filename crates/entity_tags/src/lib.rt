//! Entity tags (RFC 9110, section 8.8.3): by which whoever asked before tells what it has.
#![tactic(auto)]

mod known_tags;
mod tag;
mod tagged_text;

pub use known_tags::KnownTags;
pub use tag::{entity_tag, is_shown};
pub use tagged_text::TaggedText;
