//! The members that an object may have.
ghost use Rattle.std.specs.Prelude.{◌≡◌, map, option_map};
ghost use Rattle.serde_json.specs.View.{view};
ghost use Rattle.service_settings.specs.Reading.{Gives};
ghost use Rattle.service_settings.specs.Members.{known_said, members_said, names_of};

use crate::error::{Member, SettingsError};
use config_members::unknown_member;
use lists::Text;
use serde_json::Value;
use std::alloc::Global;

/// Of `allocator`, those of a journal in etcd with them, which another reads.
pub(crate) static ALLOCATOR: [&str; 26] = [
    "listen",
    "lifecycle",
    "journal",
    "advertise",
    "lease",
    "etcd_user",
    "etcd_password_file",
    "keep",
    "settle",
    "give_up",
    "connections",
    "report_rounds",
    "hosts",
    "tokens",
    "open_to_all",
    "allow_no_jobs",
    "collectors",
    "join_by_asking",
    "reach_changes",
    "rejoin",
    "collector_timeout",
    "handover",
    "acknowledge",
    "release_after",
    "spread",
    "fetch_timeout",
];

/// Of `allocator.lifecycle`.
pub(crate) static LIFECYCLE: [&str; 2] = ["reload", "quit"];

/// Of `allocator.tokens`.
pub(crate) static TOKENS: [&str; 2] = ["admin", "collectors"];

/// Of a collector of `allocator.collectors`.
pub(crate) static COLLECTOR: [&str; 3] = ["name", "reach", "limits"];

/// Of an entry of `allocator.join_by_asking`.
pub(crate) static JOINING_PATTERN: [&str; 3] = ["pattern", "reach", "limits"];

/// Of `allocator.spread`, or of a job's.
pub(crate) static SPREAD: [&str; 2] = ["slack", "most_moves"];

/// An object whose members are all known.
#[derive(Clone, Copy, PartialEq, Eq)]
pub(crate) enum Kind {
    Allocator,
    Lifecycle,
    Tokens,
    Collector,
    JoiningPattern,
    Spread,
}

impl Kind {
    /// The names of the members.
    fn names(self) -> &'static [&'static str]
        ensures { map (λ s. s.now) result.now ≡ names_of self }
    {
        match self {
            Kind::Allocator => ALLOCATOR.as_slice(),
            Kind::Lifecycle => LIFECYCLE.as_slice(),
            Kind::Tokens => TOKENS.as_slice(),
            Kind::Collector => COLLECTOR.as_slice(),
            Kind::JoiningPattern => JOINING_PATTERN.as_slice(),
            Kind::Spread => SPREAD.as_slice(),
        }
    }
}

/// An object of this kind without a member that is not known, or nothing.
pub(crate) fn known_or_none<'a>(
    alloc: Global,
    kind: Kind,
    member: Member,
    found: Option<&'a Value>,
) -> Result<Option<&'a Value>, SettingsError>
    ensures { Gives (λ o. option_map (λ v. view v.now) o) result (known_said kind member (option_map (λ v. view v.now) found.entry)) }
{
    if let Some(value) = found {
        check_members(alloc, kind, member, value)?;
    }
    Ok(found)
}

/// Whether the value is an object of this kind, and has no member that is not known.
#[tactic(auto, unfolding(crate::specs::Members::members_said))]
pub(crate) fn check_members(
    alloc: Global,
    kind: Kind,
    member: Member,
    value: &Value,
) -> Result<(), SettingsError>
    ensures { Gives (λ _. view value.now) result (members_said kind member (view value.now)) }
{
    let members = value.as_object().ok_or(SettingsError::Shape(member))?;
    if let Some(name) = unknown_member(kind.names(), members) {
        let name = Text::from_str(alloc, name)?;
        return Err(SettingsError::Unknown(member, name));
    }
    Ok(())
}
