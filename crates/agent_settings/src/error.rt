//! Why settings are refused, and the text of it.
use crate::hints::meant;
use crate::members::Kind;
use lists::Text;
use std::alloc::{AllocError, Global};

/// Why settings were not read.
#[derive(Drop)]
pub enum SettingsError {
    NotJson,
    /// The member is not what it has to be.
    Shape(Member),
    /// An object of this kind has another member of this name, which says nothing.
    Unknown(Kind, Text),
    Memory,
}

/// A member of the document.
#[derive(Clone, Copy, Debug, PartialEq, Eq)]
pub enum Member {
    Document,
    Name,
    Allocator,
    Prometheus,
    Listen,
    State,
    Lease,
    Tokens,
    AllocatorToken,
    AdminToken,
    PrometheusToken,
    Join,
    Reach,
    Limits,
}

impl SettingsError {
    /// The line that names the member and says what is wrong with it.
    pub fn line(&self, alloc: Global) -> Result<String, AllocError> {
        match self {
            SettingsError::NotJson => String::from_str(alloc, "no JSON"),
            SettingsError::Shape(member) => {
                let (way, missing) = (member.way(), member.missing());
                format!(in alloc; "{way}: {missing}")
            }
            SettingsError::Unknown(kind, name) => unknown_line(alloc, *kind, name.as_str()),
            SettingsError::Memory => String::from_str(alloc, "no memory"),
        }
    }
}

fn unknown_line(alloc: Global, kind: Kind, name: &str) -> Result<String, AllocError> {
    let way = kind.way();
    match meant(alloc, kind, name)? {
        Some(other) => format!(in alloc; "{way}{name}: unknown member; is {other} meant?"),
        None => format!(in alloc; "{way}{name}: unknown member"),
    }
}

impl Member {
    /// The way to the member from the document.
    fn way(self) -> &'static str {
        match self {
            Member::Document => "document",
            Member::Name => "name",
            Member::Allocator => "allocator",
            Member::Prometheus => "prometheus",
            Member::Listen => "listen",
            Member::State => "state",
            Member::Lease => "lease",
            Member::Tokens => "tokens",
            Member::AllocatorToken => "tokens.allocator",
            Member::AdminToken => "tokens.admin",
            Member::PrometheusToken => "tokens.prometheus",
            Member::Join => "join",
            Member::Reach => "join.reach",
            Member::Limits => "join.limits",
        }
    }

    /// What the member is not.
    fn missing(self) -> &'static str {
        match self {
            Member::Document | Member::Tokens | Member::Join => "no object",
            Member::Name => "no name of a collector",
            Member::Allocator => "no URL of the allocator, as http://allocd:8080 is",
            Member::Prometheus => "no URL of a Prometheus, as http://127.0.0.1:9090 is",
            Member::Listen => "no address of this machine alone, as 127.0.0.1:9099 is",
            Member::State | Member::AllocatorToken | Member::AdminToken | Member::PrometheusToken =>
                "no path of a file",
            Member::Lease => "no duration above 0, as 2m is",
            Member::Reach => "no list of reach rules",
            Member::Limits => "no object of limits",
        }
    }
}

impl From<AllocError> for SettingsError {
    ghost use Rattle.std.specs.Prelude.{◌≡◌};
    ghost use Rattle.agent_settings.specs.declared.error.SettingsError.TheVariants.{Memory};

    ghost from_gives = { λ _ e. e ≡ Memory };

    fn from(_refused: AllocError) -> SettingsError {
        SettingsError::Memory
    }
}
