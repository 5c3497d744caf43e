//! The books of scrape reports, and the samples of a scraped body.
//!
//! Contracts see `Books` as the list of the booked entries beside their targets, in order of booking.
#![tactic(auto)]

mod books;
mod error;
mod report;
mod samples;
mod standing;

pub use books::{Books, booked_once};
pub use error::BooksError;
pub use report::{Entry, Outcome, Page};
pub use samples::count_samples;
