//! The patterns of the names of collectors that join when they ask.
ghost use Rattle.std.specs.Prelude.{◌≡◌, length, IfOk, option_map};
ghost use Rattle.std.specs.Str.{chars};
ghost use Rattle.serde_json.specs.View.{view, items_view};
ghost use Rattle.service_settings.specs.Reading.{Gives, each_from};
ghost use Rattle.service_settings.specs.JoiningPattern.{matches as matches_name, is_pattern as is_pattern_text, pattern_in as pattern_in_data, joining_pattern_said, join_by_asking_said};

use crate::error::{Member, SettingsError};
use crate::matching::{Outcome, outcome_of};
use crate::reading::items_in;
use crate::settings::collectors::limits_or_none;
use crate::settings::members::{Kind, check_members};
use json_values::member;
use lists::{List, Plain, Text};
use reach_rules::{OwnLimits, Reach};
use serde_json::Value;
use std::alloc::{AllocError, Global};

/// The most characters of a pattern.
pub const LONGEST_PATTERN: usize = 200;

/// What a collector joins with that is not live, and whose name matches when its list is asked for.
#[derive(Debug, Drop)]
pub struct JoiningPattern {
    /// Each `*` stands for any characters, also none, and every other character for itself. From 1 to 200 characters.
    pub pattern: Text,
    pub reach: Reach,
    pub limits: OwnLimits,
}

impl JoiningPattern {
    /// Whether a name matches the pattern.
    #[tactic(auto, using(crate::proofs::Ends::no_end_whole))]
    pub fn matches(&self, name: &str) -> bool
        ensures { result ≡ matches_name self.now.pattern name.now }
    {
        match outcome_of(self.pattern.as_str().as_bytes(), name.as_bytes()) {
            Outcome::Matches => true,
            Outcome::Fails => false,
            Outcome::FailsBehind => false,
        }
    }

    /// An equal pattern with equal reach and limits.
    pub fn copy(&self) -> Result<JoiningPattern, AllocError>
        ensures { IfOk result (λ p. p ≡ self.now) }
    {
        let pattern = self.pattern.copy()?;
        let reach = self.reach.copy()?;
        let limits = self.limits.copy()?;
        Ok(JoiningPattern {
            pattern,
            reach,
            limits,
        })
    }
}

/// The patterns, in the order of the list.
pub(crate) fn join_by_asking_in(
    alloc: Global,
    found: Option<&Value>,
) -> Result<List<JoiningPattern>, SettingsError>
    ensures { Gives (λ p. p) result (join_by_asking_said (option_map (λ v. view v.now) found.entry)) }
{
    let items = items_in(Member::JoinByAsking, found)?;
    each_pattern(alloc, items)
}

fn each_pattern(alloc: Global, items: &[Value]) -> Result<List<JoiningPattern>, SettingsError>
    ensures { Gives (λ p. p) result (each_from joining_pattern_said 0 (items_view items.now)) }
{
    let mut patterns = List::new(alloc);
    for (index, item) in items.iter().enumerate() {
        let pattern = joining_pattern_in(alloc, index, item)?;
        patterns.push(pattern)?;
    }
    Ok(patterns)
}

#[tactic(auto, unfolding(crate::specs::JoiningPattern::joining_pattern_said))]
fn joining_pattern_in(
    alloc: Global,
    index: usize,
    value: &Value,
) -> Result<JoiningPattern, SettingsError>
    ensures { Gives (λ p. p) result (joining_pattern_said index (view value.now)) }
{
    check_members(
        alloc,
        Kind::JoiningPattern,
        Member::JoiningPattern(index),
        value,
    )?;
    let pattern = pattern_in(value).ok_or(SettingsError::Shape(Member::Pattern(index)))?;
    let pattern = Text::from_str(alloc, pattern)?;
    let reach = member(alloc, value, "reach")?;
    let reach = reach.ok_or(SettingsError::Shape(Member::PatternReach(index)))?;
    let limits = limits_or_none(alloc, value.get("limits"))?;
    let limits = limits.ok_or(SettingsError::Shape(Member::PatternLimits(index)))?;
    Ok(JoiningPattern {
        pattern,
        reach,
        limits,
    })
}

/// The text of the pattern that the object has.
fn pattern_in(value: &Value) -> Option<&str>
    ensures { option_map (λ s. s.now) result ≡ pattern_in_data (view value.now) }
{
    let text = value.get("pattern")?.as_str()?;
    if is_pattern(text) { Some(text) } else { None }
}

fn is_pattern(text: &str) -> bool
    ensures { result ≡ is_pattern_text text.now }
{
    let count = length_of(text);
    0 < count && count <= LONGEST_PATTERN
}

/// How many characters a text has.
fn length_of(text: &str) -> usize
    ensures { result ≡ length (chars text.now) }
{
    text.chars().count()
}
