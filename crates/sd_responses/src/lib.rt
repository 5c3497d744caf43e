//! The response that says what is said: the form that whoever asks wants (RFC 9110, section 12.5.1), and the entity tag of a list (section 8.8.3).
#![tactic(auto)]

mod accept;
mod list_tags;
mod manner;
mod yaml;

pub use accept::wants_document;
pub use list_tags::ListTags;
pub use manner::Manner;
