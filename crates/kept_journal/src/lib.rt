//! The journal of a desk on its device: what is written of it, what is known to be kept, and who waits for that.
//!
//! Contracts see what is kept as a beginning of the one journal that comes out of the desk. `Durable` is such a beginning, and only what has the
//! device keep the lines of its entries gives one.
#![tactic(auto)]

mod desk_journal;
mod durable;
mod journal_file;
mod journal_name;
mod kept;
mod news;

pub use desk_journal::DeskJournal;
pub use durable::Durable;
pub use journal_file::JournalFile;
pub use journal_name::JournalName;
pub use kept::{Asked, Kept, LONGEST_WAIT_MILLIS};
pub use news::News;
