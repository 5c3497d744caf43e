//! What requests may do with the whole service.
ghost use Rattle.std.specs.Prelude.{◌≡◌, option_map};
ghost use Rattle.serde_json.specs.View.{view};
ghost use Rattle.service_settings.specs.Reading.{Gives};
ghost use Rattle.service_settings.specs.Lifecycle.{both as both_data, lifecycle_members, lifecycle_of as lifecycle_of_data, lifecycle_said};

use crate::error::{Member, SettingsError};
use crate::reading::flag_or;
use crate::settings::members::{Kind, check_members};
use serde_json::Value;
use std::alloc::Global;

/// Which requests that concern the whole service are answered.
#[derive(Clone, Copy, Debug, PartialEq, Eq)]
pub struct Lifecycle {
    /// Whether HTTP may make the service read its configuration again.
    pub reload: bool,
    /// Whether HTTP may stop the service.
    pub quit: bool,
}

/// Neither, where it is left out.
pub(crate) fn lifecycle_in(alloc: Global, found: Option<&Value>) -> Result<Lifecycle, SettingsError>
    ensures { Gives (λ l. l) result (lifecycle_said (option_map (λ v. view v.now) found.entry)) }
{
    match found {
        Some(value) => lifecycle_of(alloc, value),
        None => Ok(both(false)),
    }
}

/// Whether both are answered, or for each of them whether it is.
fn lifecycle_of(alloc: Global, value: &Value) -> Result<Lifecycle, SettingsError>
    ensures { Gives (λ l. l) result (lifecycle_of_data (view value.now)) }
{
    match value.as_bool() {
        Some(may) => Ok(both(may)),
        None => each_of(alloc, value),
    }
}

fn both(may: bool) -> Lifecycle
    ensures { result ≡ both_data may }
{
    Lifecycle {
        reload: may,
        quit: may,
    }
}

/// What is left out is not answered.
#[tactic(auto, unfolding(crate::specs::Lifecycle::lifecycle_members))]
fn each_of(alloc: Global, value: &Value) -> Result<Lifecycle, SettingsError>
    ensures { Gives (λ l. l) result (lifecycle_members (view value.now)) }
{
    check_members(alloc, Kind::Lifecycle, Member::Lifecycle, value)?;
    let reload = flag_or(false, Member::LifecycleReload, value.get("reload"))?;
    let quit = flag_or(false, Member::LifecycleQuit, value.get("quit"))?;
    Ok(Lifecycle { reload, quit })
}
