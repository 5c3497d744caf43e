//! Files that hold what only their owner may know, as tokens and passwords.
#![tactic(auto)]

mod text;

pub use text::private_text;
