//! The devices that fetch over HTTP: a new connection for each request, with a limit of time and of size. One waits for each fetch, the
//! other has several under way, and looks names up on threads of their own. Beside them any request with any headers, which is waited for.
#![tactic(auto)]

mod ask;
mod asked;
mod beginning;
mod blocking;
mod exchange;
mod faults;
mod fetching;
mod hyper_fetches;
mod hyper_scrape;
mod looking;
mod lookups;
mod marked;
mod while_memory;

pub use ask::{Answer, Ask, Method};
pub use asked::ask_within;
pub use fetching::LONGEST_BODY;
pub use hyper_fetches::HyperFetches;
pub use hyper_scrape::HyperScrape;
pub use lookups::{LOOKERS, Lookups, start_lookups};
