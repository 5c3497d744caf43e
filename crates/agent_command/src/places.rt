//! What an agent was told, as it uses it.
use crate::tokens::{Keys, keys_at};
use agent_settings::{Settings, SettingsError, join_text, read_settings};
use command_faults::Fault;
use http_get::{address_of, get_of_url, name_of};
use lists::{Plain, Text};
use std::alloc::{AllocError, AllocGlobal, Global};
use std::fs::File;
use std::io;
use std::io::Read;
use std::rt::Files;

/// The most bytes of a configuration.
const LONGEST_CONFIGURATION: u64 = 1_048_576;

/// A server that is asked.
#[derive(Drop)]
pub(crate) struct Server {
    /// Its host, with a port where one is named.
    pub(crate) address: Text,
    /// What stands before each path, without a slash at its end.
    pub(crate) base: Text,
}

/// What an agent was told.
#[derive(Drop)]
pub(crate) struct Places {
    pub(crate) settings: Settings,
    pub(crate) allocator: Server,
    pub(crate) prometheus: Server,
    pub(crate) keys: Keys,
    /// The body with which its collector joins, where it joins by itself.
    pub(crate) join: Option<Text>,
}

/// What the configuration at a path says.
pub(crate) fn places_at<R: Files<File = File> + AllocGlobal>(
    rt: &R,
    path: &str,
) -> Result<Places, Fault> {
    let document = read_document(rt, path)?;
    let settings = settings_in(rt.alloc(), path, document.as_slice())?;
    match join_and_keys(rt, path, document.as_slice(), &settings) {
        Ok((join, keys)) => places_of(rt.alloc(), path, settings, keys, join),
        Err(fault) => {
            drop(settings);
            Err(fault)
        }
    }
}

/// With which body the collector of a document joins, if by itself, and which tokens are shown.
fn join_and_keys<R: Files<File = File> + AllocGlobal>(
    rt: &R,
    path: &str,
    document: &[u8],
    settings: &Settings,
) -> Result<(Option<Text>, Keys), Fault> {
    let join = join_in(rt.alloc(), path, settings.name.as_str(), document)?;
    let keys = keys_at(rt, path, &settings.tokens)?;
    Ok((join, keys))
}

fn read_document<R: Files<File = File> + AllocGlobal>(
    rt: &R,
    path: &str,
) -> Result<Vec<u8>, Fault> {
    match read_file(rt, path) {
        Ok(document) => Ok(document),
        Err(error) => Err(Fault::Told(format!(in rt.alloc(); "{path}: {error}")?)),
    }
}

fn read_file<R: Files<File = File> + AllocGlobal>(rt: &R, path: &str) -> io::Result<Vec<u8>> {
    let mut bytes = Vec::new(rt.alloc());
    File::open(rt, path)?
        .take(LONGEST_CONFIGURATION)
        .read_to_end(&mut bytes)?;
    Ok(bytes)
}

fn settings_in(alloc: Global, path: &str, document: &[u8]) -> Result<Settings, Fault> {
    match read_settings(alloc, document) {
        Ok(settings) => Ok(settings),
        Err(error) => Err(refused(alloc, path, &error)),
    }
}

fn join_in(alloc: Global, path: &str, name: &str, document: &[u8]) -> Result<Option<Text>, Fault> {
    match join_text(alloc, name, document) {
        Ok(join) => Ok(join),
        Err(error) => Err(refused(alloc, path, &error)),
    }
}

/// Why a configuration is refused.
fn refused(alloc: Global, path: &str, error: &SettingsError) -> Fault {
    match refusal_line(alloc, path, error) {
        Ok(line) => Fault::Told(line),
        Err(error) => error.into(),
    }
}

fn refusal_line(alloc: Global, path: &str, error: &SettingsError) -> Result<String, AllocError> {
    let line = error.line(alloc)?;
    format!(in alloc; "{path}: {line}")
}

fn places_of(
    alloc: Global,
    path: &str,
    settings: Settings,
    keys: Keys,
    join: Option<Text>,
) -> Result<Places, Fault> {
    match servers_of(alloc, path, &settings) {
        Ok((allocator, prometheus)) => Ok(Places {
            settings,
            allocator,
            prometheus,
            keys,
            join,
        }),
        Err(fault) => {
            drop((settings, keys, join));
            Err(fault)
        }
    }
}

/// The allocator and the Prometheus.
fn servers_of(alloc: Global, path: &str, settings: &Settings) -> Result<(Server, Server), Fault> {
    let allocator = server_at(alloc, path, "allocator", &settings.allocator)?;
    let prometheus = server_at(alloc, path, "prometheus", &settings.prometheus)?;
    Ok((allocator, prometheus))
}

/// The server at a URL, which a member of the configuration says.
fn server_at(alloc: Global, path: &str, member: &str, url: &Text) -> Result<Server, Fault> {
    let server = server_of(alloc, url.as_str())?;
    if is_host(server.address.as_str()) {
        return Ok(server);
    }
    Err(Fault::Told(format!(in alloc;
        "{path}: {member}: no host that can be asked: a name or dotted IPv4, with a port or without"
    )?))
}

fn server_of(alloc: Global, url: &str) -> Result<Server, AllocError> {
    let get = get_of_url(alloc, url)?;
    let base = Text::from_str(alloc, without_slash(get.path.as_str()))?;
    let address = get.address.copy()?;
    Ok(Server { address, base })
}

/// A path without the slash at its end.
fn without_slash(path: &str) -> &str {
    path.strip_suffix('/').unwrap_or(path)
}

fn is_host(address: &str) -> bool {
    address_of(address).is_some() || name_of(address).is_some()
}
