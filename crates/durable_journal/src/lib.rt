//! The journal of an allocator: a file that `allocd replay` reads, whose first line is a configuration and which has a line for each
//! event that was not refused. It is appended to, and read again after a crash. Behind each line stands a digest, where the file was not begun
//! before there were digests.
//!
//! Contracts see the file as the bytes that a reader gives and a device holds and keeps, and a journal as its text without digests.
#![tactic(auto)]

mod appending;
mod archive;
mod beginning;
mod by_hand;
mod configuring;
mod device;
mod epoch;
mod laws;
mod marking;
mod recovering;
mod renewing;
mod report_rounds;
mod sealing;
mod writing;

pub use appending::append;
pub use archive::Archive;
pub use beginning::{Begun, FirstLine};
pub use by_hand::sealed_by_hand;
pub use configuring::configuration_line;
pub use device::Device;
pub use epoch::{epoch_of, next_epoch, with_epoch};
pub use laws::{files_survive, journals_resume, journals_survive, refused_are_left_out, settles};
pub use recovering::{MOST_JOURNAL, Recovered, recover};
pub use report_rounds::with_report_rounds;
pub use writing::{Lines, journal_lines};
