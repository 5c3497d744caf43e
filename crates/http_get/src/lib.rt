//! What collectors and refreshers ask over HTTP and what they make of the answers, without a socket: how a target is asked,
//! and what the answer of a discovery source says.
//!
//! Contracts see a request as the texts of its address and path, and an answer as its status, its media type and its body.
#![tactic(auto)]

mod address;
mod cause;
mod discovery;
mod error;
mod fetches;
mod get;
mod host;
mod laws;
mod names;
mod path;
mod prefix;
mod query;
mod refreshing;
mod reply;
mod scrape;
mod scrape_request;
mod script;
mod url;

pub use address::{DEFAULT_PORT, address_of};
pub use cause::Cause;
pub use discovery::{Listing, found, listed, listed_in_files};
pub use error::RefreshError;
pub use fetches::{Asker, FetchSeveral, Next};
pub use get::Get;
pub use host::{LONGEST_LABEL, LONGEST_NAME, name_of};
pub use laws::names_law;
pub use refreshing::{get_of_source, heard, refresh};
pub use reply::{FetchFault, Reply};
pub use scrape::{Scrape, failures_after};
pub use scrape_request::{get_in, get_of};
pub use script::Script;
pub use url::get_of_url;
