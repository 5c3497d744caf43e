//! The service over the allocator of its journal.
use crate::end::End;
use allocation_core::Core;
use command_faults::Fault;
use event_loops::Runtime;
use journal_files::{Disk, Journals, Opened, open_allocator};
use kept_journal::JournalFile;
use log::{error, info, warn};
use logfmt::{Logfmt, Quoted};
use serve_configuration::{ConfigurationFile, Devices};
use service_tasks::{Journal, Service};
use std::alloc::{AllocError, AllocGlobal, Global};
use std::fs::File;
use std::io;
use std::net::{SocketAddr, TcpListener};
use std::rt::Files;
use std::time::Clock;

/// Serves over the allocator that the journal at a path leads to, where there is a path.
pub(crate) fn serve_journal<R>(
    rt: &R,
    alloc: Global,
    service: Service,
    configuration: ConfigurationFile,
    listener: TcpListener,
    device: Devices<R>,
    journal: Option<String>,
) -> Result<End, Fault>
where
    R: Runtime + Files<File = File> + Print + Eprint,
{
    match open_journals(rt, alloc, &service, &journal) {
        Ok((opened, mut journals)) => {
            tell_what_is_kept(rt, &journal);
            tell_who_is_missed(rt, &service);
            let served = serve_opened(
                rt,
                alloc,
                service,
                configuration,
                listener,
                device,
                &mut journals,
                opened,
            );
            let ended = match served {
                Ok(core) => {
                    log_end(rt, core.total());
                    drop(core);
                    Ok(End::Done)
                }
                Err(error) => Err(error.into()),
            };
            drop((journals, journal));
            ended
        }
        Err(fault) => {
            drop((service, configuration, listener, device, journal));
            Err(fault)
        }
    }
}

pub(crate) fn log_end<R: Clock + Eprint + Copy>(rt: &R, samples: u128) {
    info!(Logfmt(*rt); samples:% = samples; "ended");
}

/// Tells where nothing is kept.
fn tell_what_is_kept<R: Clock + Eprint + Copy>(rt: &R, journal: &Option<String>) {
    if journal.is_none() {
        warn!(Logfmt(*rt); "no journal is given: what collectors were given and what was booked ends with this process");
    }
}

/// Tells where nobody notices that a collector is dead.
pub(crate) fn tell_who_is_missed<R: Clock + Eprint + Copy>(rt: &R, service: &Service) {
    if !service.notices_absence() {
        warn!(Logfmt(*rt); "collector_timeout is never: nobody notices a collector that is dead, and its targets stay with it");
    }
}

/// The allocator that a journal leads to, and where the journals are. A journal that the machine cannot open is told.
fn open_journals<R: Files<File = File> + AllocGlobal + Clock + Eprint + Copy + Drop>(
    rt: &R,
    alloc: Global,
    service: &Service,
    journal: &Option<String>,
) -> Result<(Opened<Disk>, Journals<R>), Fault> {
    let opened = journals_at(rt, alloc, service, journal);
    if let (Err(Fault::Machine(error)), Some(path)) = (&opened, journal) {
        log_failure(rt, path.as_str(), error);
    }
    opened
}

fn log_failure<R: Clock + Eprint + Copy>(rt: &R, path: &str, error: &io::Error) {
    let path = Quoted(path);
    error!(Logfmt(*rt); journal:% = path; "the journal cannot be opened: {error}");
}

fn journals_at<R: Files<File = File> + AllocGlobal + Clock + Eprint + Copy + Drop>(
    rt: &R,
    alloc: Global,
    service: &Service,
    journal: &Option<String>,
) -> Result<(Opened<Disk>, Journals<R>), Fault> {
    let path = copied(alloc, journal)?;
    let journals = Journals::open(*rt, alloc, path, Some(service.keep()))?;
    let round = service.scrape_interval();
    match open_allocator(&journals, service.line(), service.jobs(), round) {
        Ok(opened) => Ok((opened, journals)),
        Err(fault) => {
            drop(journals);
            Err(fault)
        }
    }
}

fn copied(alloc: Global, path: &Option<String>) -> Result<Option<String>, AllocError> {
    match path {
        Some(path) => Ok(Some(String::from_str(alloc, path.as_str())?)),
        None => Ok(None),
    }
}

fn serve_opened<R>(
    rt: &R,
    alloc: Global,
    service: Service,
    configuration: ConfigurationFile,
    listener: TcpListener,
    device: Devices<R>,
    journals: &mut Journals<R>,
    opened: Opened<Disk>,
) -> io::Result<Core>
where
    R: Runtime + Files<File = File> + Print + Eprint,
{
    let Opened {
        core,
        epoch,
        names,
        file,
        bytes,
        chain,
    } = opened;
    let file = file.map(|file| JournalFile::new(file, bytes, chain));
    if let Ok(here) = listener.local_addr() {
        log_address(rt, here);
    }
    daemon::serve(
        rt,
        alloc,
        service,
        listener,
        device,
        Journal { file, epoch, names },
        journals,
        configuration,
        core,
    )
}

pub(crate) fn log_address<R: Clock + Eprint + Copy>(rt: &R, here: SocketAddr) {
    info!(Logfmt(*rt); address:% = here; "listening");
}
