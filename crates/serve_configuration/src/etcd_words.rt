//! What is told of a journal in etcd.
use command_faults::Fault;
use etcd_settings::{Member, Settings, SettingsError, read_members, settings_of};
use std::alloc::{AllocError, Global};

/// The settings of a journal in etcd: of that which is given, or else of that of the document of the configuration at a path. None where the journal is a file, or
/// there is none.
pub fn etcd_of(
    alloc: Global,
    path: &str,
    document: &[u8],
    given: Option<&str>,
) -> Result<Option<Settings>, Fault> {
    match settings_in(alloc, document, given) {
        Ok(settings) => Ok(settings),
        Err(SettingsError::Memory) => Err(AllocError.into()),
        Err(error) => Err(Fault::Told(line_of(alloc, path, given, error)?)),
    }
}

fn settings_in(
    alloc: Global,
    document: &[u8],
    given: Option<&str>,
) -> Result<Option<Settings>, SettingsError> {
    match read_members(alloc, document) {
        Ok(members) => settings_of(alloc, members, given),
        Err(error) => Err(error),
    }
}

/// The line of a fault: in the journal that is given, or in the configuration.
fn line_of(
    alloc: Global,
    path: &str,
    given: Option<&str>,
    error: SettingsError,
) -> Result<String, AllocError> {
    let missing = error.missing();
    match (given, error) {
        (Some(_), SettingsError::Shape(Member::Endpoints | Member::Prefix)) => {
            format!(in alloc; "allocd serve: --journal: {missing}")
        }
        _ => {
            let member = error.path();
            format!(in alloc; "{path}: {member}: {missing}")
        }
    }
}
