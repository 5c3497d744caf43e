//! The service: it discovers, allocates, opens rounds and answers over HTTP, on threads that share a desk. Where a desk's journal is
//! nearly full, another desk is opened over its allocator, which is renewed.
//!
//! Contracts say that the allocator at the end is one that events and renewals of the machine lead to; of time and order they say nothing.
#![tactic(auto)]

mod one_desk;
mod running;
mod serving;

pub use serving::serve;
