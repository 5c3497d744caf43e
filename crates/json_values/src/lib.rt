//! JSON texts in both directions, and what JSON values spell: whole numbers, texts, pairs, lists, and members of objects. Every
//! JSON text of the program is parsed here; what its values say beyond these words, each crate that has documents of its own
//! reads for itself.
//!
//! Contracts see a JSON text as the data that `serde_json` reads of it.
#![tactic(auto)]

mod members;
mod parsing;
mod spelled;
mod written;

pub use members::{LeftOut, members_but};
pub use parsing::parse;
pub use spelled::{FromJson, Spelled, array_of, list_of, member, number, put_written};
pub use written::{text_of, written_text};
