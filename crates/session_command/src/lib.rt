//! The command `allocd session`: a whole fleet in one process, over the loopback of this machine. What a session's document says is
//! served, discovered, allocated, scraped and reported for some rounds, and the session's lines are written.
//!
//! Contracts say what is put into the document, what the page server answers, and what the lines say; of connections, time and order
//! they say nothing.
#![tactic(auto)]

mod asking;
mod ended;
mod here;
mod lines;
mod one_desk;
mod opening;
mod page_server;
mod paging;
mod running;
mod session_tasks;

pub use asking::add_answer;
pub use ended::{Ended, Fault};
pub use here::with_here;
pub use paging::respond;
pub use running::session;
