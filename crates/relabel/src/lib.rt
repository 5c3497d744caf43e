//! Relabelling rules, after the `relabel_config` of Prometheus: how they are read, and what they make of label sets.
//!
//! Contracts see a rule as what it says, with the text of its pattern. What a pattern matches, what a template stands for
//! and what a digest is are the meanings of the crates `regex` and `md5`.
#![tactic(auto)]

mod action;
mod actions;
mod discovery;
mod error;
mod expanding;
mod fields;
mod input;
mod laws;
mod name;
mod pattern;
mod rule;
mod rule_matcher;
mod rules;

pub use action::Action;
pub use discovery::Found;
pub use error::{RuleError, RulesError};
pub use laws::defaults_may_be_left_out;
pub use pattern::{Compiler, PatternError, RegexCrate};
pub use rule::{Rule, RuleSettings};
pub use rules::{Relabelled, Rules};
