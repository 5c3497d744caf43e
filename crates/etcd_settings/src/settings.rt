//! The settings of a journal in etcd.
ghost use Rattle.std.specs.Prelude.{◌≡◌, option_map};
ghost use Rattle.etcd_settings.specs.Reading.{Gives};
ghost use Rattle.etcd_settings.specs.Settings.{place_given as place_given_by, settings_at as settings_at_place, settings_said, without as without_etcd};

use crate::error::{Member, SettingsError};
use crate::members::{Members, User};
use crate::place::{Place, journal_in};
use lists::Text;
use std::alloc::Global;

/// How long a lease may be, in milliseconds.
pub const SHORTEST_LEASE: u64 = 2_000;

pub const LONGEST_LEASE: u64 = 60_000;

/// How long it is where nothing is said.
pub const DEFAULT_LEASE: u64 = 10_000;

/// The settings of a journal in etcd.
#[derive(Drop)]
pub struct Settings {
    pub place: Place,
    /// The URL that others are sent to while this instance leads. Where nothing is said it is made of the address where it listens.
    pub advertise: Option<Text>,
    /// How long this instance leads without a word from it, in milliseconds. From 2,000 to 60,000.
    pub lease: u64,
    pub user: Option<User>,
}

/// The settings of the journal that is given, or else of that of the members. None where it is a file, or there is none: then no member may be there that
/// only a journal in etcd has.
pub fn settings_of(
    alloc: Global,
    members: Members,
    given: Option<&str>,
) -> Result<Option<Settings>, SettingsError>
    ensures { Gives (λ o. o) result (settings_said members (option_map (λ s. s.now) given.entry)) }
{
    let Members {
        journal,
        advertise,
        lease,
        user,
    } = members;
    match place_given(alloc, journal, given) {
        Ok(Some(place)) => Ok(Some(settings_at(place, advertise, lease, user))),
        Ok(None) => without(&advertise, lease, &user),
        Err(error) => Err(error),
    }
}

/// Where the journal is that is given, or else that of the members.
fn place_given(
    alloc: Global,
    journal: Option<Place>,
    given: Option<&str>,
) -> Result<Option<Place>, SettingsError>
    ensures { Gives (λ o. o) result (place_given_by journal (option_map (λ s. s.now) given.entry)) }
{
    match given {
        Some(text) => {
            drop(journal);
            journal_in(alloc, text)
        }
        None => Ok(journal),
    }
}

fn settings_at(
    place: Place,
    advertise: Option<Text>,
    lease: Option<u64>,
    user: Option<User>,
) -> Settings
    ensures { result ≡ settings_at_place place advertise lease user }
{
    Settings {
        place,
        advertise,
        lease: lease.unwrap_or(DEFAULT_LEASE),
        user,
    }
}

fn without(
    advertise: &Option<Text>,
    lease: Option<u64>,
    user: &Option<User>,
) -> Result<Option<Settings>, SettingsError>
    ensures { Gives (λ o. o) result (without_etcd advertise.now lease user.now) }
{
    if advertise.is_some() {
        return Err(SettingsError::NotInEtcd(Member::Advertise));
    }
    if lease.is_some() {
        return Err(SettingsError::NotInEtcd(Member::Lease));
    }
    if user.is_some() {
        return Err(SettingsError::NotInEtcd(Member::User));
    }
    Ok(None)
}
