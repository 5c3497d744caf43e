//! An entry of a journal: an event, whose it is, and how it was answered. A journal is legal where it is one run of the machine.
#![tactic(auto)]

mod entry;

pub use entry::Entry;
