//! Tests of the desk with threads. They stand apart from `alloc_desk`, since a crate with tests is proved once more with them.
#![tactic(auto)]

#[cfg(test)]
mod desks;
#[cfg(test)]
mod full;
#[cfg(test)]
mod mixed;
#[cfg(test)]
mod notes;
#[cfg(test)]
mod opening;
#[cfg(test)]
mod reallocations;
#[cfg(test)]
mod scripts;
#[cfg(test)]
mod steps;
