//! The journals of an allocator on disk: the one that is written, and beside it the old ones by number; and the allocator that they lead
//! to.
#![tactic(auto)]

mod disk;
mod guarding;
mod journals;
mod laws;
mod names;
mod opening;
mod reading;
mod rounds;
mod written;

pub use disk::Disk;
pub use guarding::is_same_file;
pub use journals::Journals;
pub use laws::found_lead;
pub use names::{NamedCollector, with_names};
pub use opening::{Opened, open_allocator};
pub use reading::{Journal, Next, Past, Start, Wanted, read_journal};
pub use rounds::round_age;
pub use written::{Written, log_read, log_replaced, opened_with};
