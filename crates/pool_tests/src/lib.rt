//! Tests of a collector's turns over a desk and a device in memory. They stand apart from `collector_pool`, since a crate with tests is proved once more
//! with them. What is asked over HTTP, and what is made of the answers, stands in the rows of `request_rows`; rounds are tried by `scripts/try_fetches.py`.
#![tactic(auto)]

#[cfg(test)]
mod copies;
#[cfg(test)]
mod opening;
#[cfg(test)]
mod turns;
