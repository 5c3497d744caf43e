//! The rounds of a session over a desk: collectors scrape on threads, while another thread refreshes the sources and reallocates.
#![tactic(auto)]

mod beginning;
mod entering;
mod refreshing;
mod rounds;
mod stop;

pub use beginning::begin;
pub use refreshing::Refresher;
pub use rounds::run_rounds;
pub use stop::SessionStop;
