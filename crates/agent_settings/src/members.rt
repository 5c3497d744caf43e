//! The members that an object may have.
ghost use Rattle.std.specs.Prelude.{◌≡◌, map, option_map};
ghost use Rattle.serde_json.specs.View.{view};
ghost use Rattle.agent_settings.specs.Reading.{Gives};
ghost use Rattle.agent_settings.specs.Members.{known_said, member_of, members_said};
ghost use Rattle.agent_settings.specs.Names.{names_of};

use crate::error::{Member, SettingsError};
use crate::tables::{DOCUMENT, JOIN, TOKENS};
use config_members::unknown_member;
use lists::Text;
use serde_json::Value;
use std::alloc::Global;

/// An object whose members are all known.
#[derive(Clone, Copy, PartialEq, Eq)]
pub enum Kind {
    Document,
    Tokens,
    Join,
}

impl Kind {
    /// The names of the members.
    pub(crate) fn names(self) -> &'static [&'static str]
        ensures { map (λ s. s.now) result.now ≡ names_of self }
    {
        match self {
            Kind::Document => DOCUMENT.as_slice(),
            Kind::Tokens => TOKENS.as_slice(),
            Kind::Join => JOIN.as_slice(),
        }
    }

    /// The member of the document that it is.
    fn member(self) -> Member
        ensures { result ≡ member_of self }
    {
        match self {
            Kind::Document => Member::Document,
            Kind::Tokens => Member::Tokens,
            Kind::Join => Member::Join,
        }
    }

    /// The way to the members.
    pub(crate) fn way(self) -> &'static str {
        match self {
            Kind::Document => "",
            Kind::Tokens => "tokens.",
            Kind::Join => "join.",
        }
    }
}

/// An object of this kind without a member that is not known, or nothing.
pub(crate) fn known_or_none<'a>(
    alloc: Global,
    kind: Kind,
    found: Option<&'a Value>,
) -> Result<Option<&'a Value>, SettingsError>
    ensures { Gives (λ o. option_map (λ v. view v.now) o) result (known_said kind (option_map (λ v. view v.now) found.entry)) }
{
    if let Some(value) = found {
        check_members(alloc, kind, value)?;
    }
    Ok(found)
}

/// Whether the value is an object of this kind, and has no member that is not known.
#[tactic(auto, unfolding(crate::specs::Members::members_said))]
pub(crate) fn check_members(alloc: Global, kind: Kind, value: &Value) -> Result<(), SettingsError>
    ensures { Gives (λ _. view value.now) result (members_said kind (view value.now)) }
{
    let members = value
        .as_object()
        .ok_or(SettingsError::Shape(kind.member()))?;
    if let Some(name) = unknown_member(kind.names(), members) {
        let name = Text::from_str(alloc, name)?;
        return Err(SettingsError::Unknown(kind, name));
    }
    Ok(())
}
