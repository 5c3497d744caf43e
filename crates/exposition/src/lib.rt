//! Prometheus's text exposition format, version 0.0.4 (Prometheus documentation, *Exposition formats*): families of samples with whole
//! values, and histograms of durations.
//!
//! Contracts see a text as its bytes.
#![tactic(auto)]

mod durations;
mod escaping;
mod exposition;
mod kind;
mod laws;
mod observing;

pub use durations::{Bucket, Durations};
pub use exposition::Exposition;
pub use kind::Kind;
pub use laws::values_are_read_back;
