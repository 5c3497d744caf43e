//! What the members of `allocator` say of a journal in etcd.
ghost use Rattle.std.specs.Prelude.{◌≡◌, option_map};
ghost use Rattle.serde_json.specs.View.{view};
ghost use Rattle.etcd_settings.specs.Reading.{Gives};
ghost use Rattle.etcd_settings.specs.Members.{journal_member_said, members_read, members_said, pair_said, user_said};

use crate::error::{Member, SettingsError};
use crate::place::{Place, journal_in};
use crate::reading::{json_in, lease_or_none, text_or_none, url_or_none};
use lists::Text;
use serde_json::Value;
use service_settings::member_of;
use std::alloc::Global;

/// As whom etcd is asked.
#[derive(Debug, Drop)]
pub struct User {
    pub name: Text,
    /// The path of the file that has the password.
    pub password_file: Text,
}

/// What the members say. What is left out is none.
#[derive(Drop)]
pub struct Members {
    /// Where the journal is, where it is in etcd.
    pub journal: Option<Place>,
    /// The URL that others are sent to while this instance leads.
    pub advertise: Option<Text>,
    /// How long this instance leads without a word from it, in milliseconds. From 2,000 to 60,000.
    pub lease: Option<u64>,
    pub user: Option<User>,
}

/// Reads the members out of the document of a configuration. A journal of another shape than a text is not looked at. The first fault is that of the member
/// that stands first in `docs/operate/ETCD.md`.
pub fn read_members(alloc: Global, bytes: &[u8]) -> Result<Members, SettingsError>
    ensures { Gives (λ m. m) result (members_read bytes.now) }
{
    let value = json_in(alloc, bytes)?;
    members_in(alloc, value.get("allocator"))
}

#[tactic(auto, unfolding(crate::specs::Members::members_said))]
fn members_in(alloc: Global, allocator: Option<&Value>) -> Result<Members, SettingsError>
    ensures { Gives (λ m. m) result (members_said (option_map (λ v. view v.now) allocator.entry)) }
{
    let journal = journal_or_none(alloc, member_of(allocator, "journal"))?;
    let advertise = url_or_none(alloc, member_of(allocator, "advertise"))?;
    let lease = lease_or_none(member_of(allocator, "lease"))?;
    let user = user_in(alloc, allocator)?;
    Ok(Members {
        journal,
        advertise,
        lease,
        user,
    })
}

fn journal_or_none(alloc: Global, found: Option<&Value>) -> Result<Option<Place>, SettingsError>
    ensures { Gives (λ o. o) result (journal_member_said (option_map (λ v. view v.now) found.entry)) }
{
    let Some(value) = found else {
        return Ok(None);
    };
    match value.as_str() {
        Some(journal) => journal_in(alloc, journal),
        None => Ok(None),
    }
}

#[tactic(auto, unfolding(crate::specs::Members::user_said))]
fn user_in(alloc: Global, allocator: Option<&Value>) -> Result<Option<User>, SettingsError>
    ensures { Gives (λ o. o) result (user_said (option_map (λ v. view v.now) allocator.entry)) }
{
    let name = text_or_none(alloc, Member::User, member_of(allocator, "etcd_user"))?;
    let file = member_of(allocator, "etcd_password_file");
    let file = text_or_none(alloc, Member::PasswordFile, file)?;
    pair(name, file)
}

fn pair(name: Option<Text>, file: Option<Text>) -> Result<Option<User>, SettingsError>
    ensures { Gives (λ o. o) result (pair_said name file) }
{
    match (name, file) {
        (Some(name), Some(password_file)) => Ok(Some(User {
            name,
            password_file,
        })),
        (Some(_), None) => Err(SettingsError::NoPasswordFile),
        (None, Some(_)) => Err(SettingsError::NoUser),
        (None, None) => Ok(None),
    }
}
