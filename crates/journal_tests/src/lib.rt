//! Tests of the journal and of resuming. They stand apart from `durable_journal`, since a crate with tests is proved once more with them.
#![tactic(auto)]

#[cfg(test)]
mod crashes;
#[cfg(test)]
mod device;
