//! How even the collectors' loads are made.
ghost use Rattle.std.specs.Prelude.{◌≡◌, option_map};
ghost use Rattle.serde_json.specs.View.{view};
ghost use Rattle.service_settings.specs.Reading.{Gives};
ghost use Rattle.service_settings.specs.Spread.{slack_in as slack_in_data, slack_said, most_moves_in as most_moves_in_data, most_moves_said, spread_of as spread_of_data, spread_said};

use crate::error::{Member, SettingsError};
use crate::settings::DEFAULT_SLACK;
use crate::settings::members::{Kind, check_members};
use json_values::number;
use serde_json::Value;
use std::alloc::Global;

/// The most percent that a slack may be.
pub const MOST_SLACK: u32 = 1_000;

/// How even the collectors' loads are made, where that costs no coverage.
#[derive(Clone, Copy, Debug, PartialEq, Eq)]
pub struct Spread {
    /// By how many percent a collector may have more targets than where the loads are the most even. From 0 to 1,000.
    pub slack: u32,
    /// How many targets move for evenness at one reallocation at most. Above 0.
    pub most_moves: Option<u32>,
}

/// Nothing is evened where it is left out.
pub(crate) fn spread_in(
    alloc: Global,
    found: Option<&Value>,
) -> Result<Option<Spread>, SettingsError>
    ensures { Gives (λ s. s) result (spread_said (option_map (λ v. view v.now) found.entry)) }
{
    let Some(value) = found else {
        return Ok(None);
    };
    let spread = spread_of(alloc, value)?;
    Ok(Some(spread))
}

#[tactic(auto, unfolding(crate::specs::Spread::spread_of))]
fn spread_of(alloc: Global, value: &Value) -> Result<Spread, SettingsError>
    ensures { Gives (λ s. s) result (spread_of_data (view value.now)) }
{
    check_members(alloc, Kind::Spread, Member::Spread, value)?;
    let slack = slack_or(DEFAULT_SLACK, value.get("slack"))?;
    let most_moves = most_moves_or_none(value.get("most_moves"))?;
    Ok(Spread { slack, most_moves })
}

fn slack_or(absent: u32, found: Option<&Value>) -> Result<u32, SettingsError>
    ensures { Gives (λ n. n) result (slack_said absent (option_map (λ v. view v.now) found.entry)) }
{
    match found {
        Some(value) => slack_in(value).ok_or(SettingsError::Shape(Member::Slack)),
        None => Ok(absent),
    }
}

pub(crate) fn slack_in(value: &Value) -> Option<u32>
    ensures { result ≡ slack_in_data (view value.now) }
{
    let slack = number(value)?;
    if slack <= MOST_SLACK {
        Some(slack)
    } else {
        None
    }
}

/// As many as there are where it is left out.
fn most_moves_or_none(found: Option<&Value>) -> Result<Option<u32>, SettingsError>
    ensures { Gives (λ n. n) result (most_moves_said (option_map (λ v. view v.now) found.entry)) }
{
    let Some(value) = found else {
        return Ok(None);
    };
    let most_moves = most_moves_in(value).ok_or(SettingsError::Shape(Member::MostMoves))?;
    Ok(Some(most_moves))
}

fn most_moves_in(value: &Value) -> Option<u32>
    ensures { result ≡ most_moves_in_data (view value.now) }
{
    let most_moves = number(value)?;
    if most_moves > 0 {
        Some(most_moves)
    } else {
        None
    }
}
