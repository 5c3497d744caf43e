//! The HTTP server of a desk: it reads a request, asks the desk and writes the answer. `sd_routes` says what requests ask for and
//! how answers are written.
//!
//! Contracts say of a reply that what it writes is the written form of what the desk told, of the one journal that comes out of it. Of
//! connections and time they say nothing.
#![tactic(auto)]

mod acknowledging;
mod booked;
mod by_loops;
mod certificate_page;
mod collector_lists;
mod counter;
mod documents;
mod entering;
mod entry;
mod handler;
mod handler_parts;
mod job_pages;
mod keeping;
mod laws;
mod list_text;
mod list_texts;
mod look;
mod named;
mod once_kept;
mod one_by_one;
mod own_list;
mod own_loop;
mod own_pages;
mod reply;
mod reported;
mod seen;
mod service;
mod shown;
mod told_again;
mod told_list;

pub use by_loops::{DEFAULT_LOOPS, serve_by_loops};
pub use entry::Entry;
pub use handler::Handler;
pub use handler_parts::HandlerParts;
pub use laws::lists_are_of_one_moment;
pub use list_texts::ListTexts;
pub use named::are_named;
pub use one_by_one::serve_one_by_one;
pub use reply::Reply;
pub use seen::Seen;
pub use service::AllocatorService;
