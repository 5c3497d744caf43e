//! Who may ask for what, as the configuration says it.
use admission::{Admission, Key, read_keys};
use command_faults::Fault;
use lists::{List, Plain, Text};
use private_files::private_text;
use service_settings::Doors;
use std::alloc::{AllocError, AllocGlobal, Global};
use std::fs::File;
use std::net::SocketAddr;
use std::rt::Files;

/// The most bytes of a file of tokens: 1 MiB.
const LONGEST_TOKENS: u64 = 1_048_576;

/// Who may ask for what where a service listens at an address. The path is that of the configuration.
pub fn admission_at<R: Files<File = File> + AllocGlobal>(
    rt: &R,
    path: &str,
    doors: &Doors,
    here: SocketAddr,
) -> Result<Admission, Fault> {
    check_openness(rt.alloc(), path, doors, here)?;
    let admin = keys_at(rt, path, "admin", &doors.admin_tokens)?;
    match keys_at(rt, path, "collectors", &doors.collector_tokens) {
        Ok(collectors) => match own_hosts(rt.alloc(), doors, here) {
            Ok(hosts) => Ok(Admission {
                hosts,
                admin,
                collectors,
            }),
            Err(error) => {
                drop((admin, collectors));
                Err(error.into())
            }
        },
        Err(fault) => {
            drop(admin);
            Err(fault)
        }
    }
}

/// Refuses an address at which other machines may ask, where no tokens are named and nobody says that all may ask.
fn check_openness(alloc: Global, path: &str, doors: &Doors, here: SocketAddr) -> Result<(), Fault> {
    let is_guarded = doors.admin_tokens.is_some() && doors.collector_tokens.is_some();
    if here.ip().is_loopback() || is_guarded || doors.open_to_all {
        return Ok(());
    }
    Err(Fault::Told(format!(in alloc;
        "{path}: allocator.listen: other machines can ask at {here}: name files in allocator.tokens.admin and allocator.tokens.collectors, or set allocator.open_to_all to true"
    )?))
}

/// The names under which the service may be asked. All, where it listens for other machines and none is named.
fn own_hosts(
    alloc: Global,
    doors: &Doors,
    here: SocketAddr,
) -> Result<Option<List<Text>>, AllocError> {
    if !here.ip().is_loopback() && doors.hosts.is_empty() {
        return Ok(None);
    }
    let mut hosts = List::new(alloc);
    match add_hosts(alloc, &mut hosts, doors, here) {
        Ok(()) => Ok(Some(hosts)),
        Err(error) => {
            drop(hosts);
            Err(error)
        }
    }
}

fn add_hosts(
    alloc: Global,
    hosts: &mut List<Text>,
    doors: &Doors,
    here: SocketAddr,
) -> Result<(), AllocError> {
    hosts.push(Text::from_str(alloc, "localhost")?)?;
    let address = here.ip();
    hosts.push(Text::from_string(format!(in alloc; "{address}")?))?;
    for host in doors.hosts.as_slice() {
        hosts.push(host.copy()?)?;
    }
    Ok(())
}

/// The keys of a file that the configuration names.
fn keys_at<R: Files<File = File> + AllocGlobal>(
    rt: &R,
    path: &str,
    member: &str,
    file: &Option<Text>,
) -> Result<Option<List<Key>>, Fault> {
    let Some(file) = file else {
        return Ok(None);
    };
    let file = file.as_str();
    match private_text(rt, file, LONGEST_TOKENS)? {
        Ok(text) => match read_keys(rt.alloc(), text.as_str())? {
            Some(keys) => Ok(Some(keys)),
            None => told(
                rt.alloc(),
                path,
                member,
                file,
                "a line has a token, or the name of a collector, a space and a token; and at least one line",
            ),
        },
        Err(why) => told(rt.alloc(), path, member, file, why.as_str()),
    }
}

fn told<T>(alloc: Global, path: &str, member: &str, file: &str, why: &str) -> Result<T, Fault> {
    Err(Fault::Told(format!(in alloc; "{path}: allocator.tokens.{member}: {file}: {why}")?))
}
