//! The list and the text of every public type of this repository, and the one trait for copying and
//! comparing plain data. Contracts see a `List` as the list of its elements and a `Text` as its bytes.
#![tactic(auto)]

mod list;
mod plain;
mod text;

pub use list::{List, all_same, copies};
pub use plain::Plain;
pub use text::Text;
