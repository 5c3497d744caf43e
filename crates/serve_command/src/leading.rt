//! An instance that leads.
use crate::command::Asked;
use crate::end::End;
use crate::in_etcd::Begun;
use crate::instance::Instance;
use crate::running::{log_address, log_end};
use crate::standing_by::{TIMES, answer_then_quit};
use command_faults::Fault;
use command_words::VERSION;
use durable_journal::next_epoch;
use etcd_archive::{Began, NotOpened, open_allocator};
use etcd_client::EtcdClient;
use etcd_journal::Opened;
use event_loops::{Gate, Runtime};
use journal_files::Wanted;
use kept_journal::JournalFile;
use log::warn;
use logfmt::{Logfmt, Quoted};
use serve_configuration::{ConfigurationFile, Devices};
use service_tasks::{Configuration, Journal, Service};
use std::fs::File;
use std::net::TcpListener;
use std::rt::Files;
use std::sync::Arc;
use std::thread;
use std::time::Clock;

/// Serves over the journal of an instance that leads, until the service is to end or another leads. Where the instance was told to end meanwhile it does not begin.
pub(crate) fn lead<R>(
    rt: &R,
    instance: &Instance,
    asked: &Asked<'_>,
    begun: Begun<R>,
    opened: Opened<EtcdClient<R>>,
) -> Result<End, Fault>
where
    R: Runtime + Files<File = File> + Print + Eprint,
{
    if instance.standing.is_quitting() {
        drop((begun, opened));
        return Ok(End::Done);
    }
    let Begun {
        service,
        configuration,
        listener,
        device,
    } = begun;
    let mut configuration = configuration;
    let service = service_now(rt, asked, &mut configuration, service).with_leading();
    serve_led(
        rt,
        instance,
        service,
        configuration,
        listener,
        device,
        opened,
    )
}

/// The service of the configuration as it is now. Where that has faults, the one that was read before.
fn service_now<R: Clock + Eprint + Copy>(
    rt: &R,
    asked: &Asked<'_>,
    configuration: &mut ConfigurationFile,
    before: Service,
) -> Service {
    match configuration.read() {
        Ok(()) => match service_read(asked, configuration) {
            Some(now) => {
                drop(before);
                now
            }
            None => {
                log_faults(rt, "no memory");
                before
            }
        },
        Err(line) => {
            log_faults(rt, line.as_str().trim_end());
            drop(line);
            before
        }
    }
}

/// The service of the configuration that was just read. None without memory.
fn service_read(asked: &Asked<'_>, configuration: &ConfigurationFile) -> Option<Service> {
    let service = configuration.service()?;
    match Arc::try_clone(asked.lost_lines) {
        Ok(lost_lines) => Some(service.with_log(lost_lines).with_version(VERSION)),
        Err(_) => {
            drop(service);
            None
        }
    }
}

fn log_faults<R: Clock + Eprint + Copy>(rt: &R, fault: &str) {
    let fault = Quoted(fault);
    warn!(Logfmt(*rt); fault:% = fault; "the configuration has faults now: this instance follows the one that it read when it began");
}

/// Serves over the journal that was opened. Where the instance was told to end while that was replayed it does not begin.
fn serve_led<R>(
    rt: &R,
    instance: &Instance,
    service: Service,
    configuration: ConfigurationFile,
    listener: TcpListener,
    device: Devices<R>,
    opened: Opened<EtcdClient<R>>,
) -> Result<End, Fault>
where
    R: Runtime + Files<File = File> + Print + Eprint,
{
    match replayed(rt, instance, &listener, opened, wanted_by(rt, &service)) {
        Ok(began) if instance.standing.is_quitting() => {
            drop((service, configuration, listener, device, began));
            Ok(End::Done)
        }
        Ok(began) => serve_began(
            rt,
            instance,
            service,
            configuration,
            listener,
            device,
            began,
        ),
        Err(not_opened) => {
            drop((service, configuration, listener, device));
            ended_by(not_opened)
        }
    }
}

/// How a service ends over whose journal no allocator is opened.
fn ended_by(not_opened: NotOpened) -> Result<End, Fault> {
    match not_opened {
        NotOpened::Deposed => Ok(End::Deposed),
        NotOpened::Fault(fault) => Err(fault),
    }
}

/// The allocator that the journal leads to. Requests are answered as by who stands by meanwhile.
fn replayed<R>(
    rt: &R,
    instance: &Instance,
    listener: &TcpListener,
    opened: Opened<EtcdClient<R>>,
    wanted: Wanted<'_>,
) -> Result<Began<R, EtcdClient<R>>, NotOpened>
where
    R: Runtime + Files<File = File> + Print + Eprint,
{
    let gate = match Gate::new(instance.alloc, instance.connections, TIMES) {
        Ok(gate) => gate,
        Err(error) => {
            drop(opened);
            return Err(NotOpened::Fault(error.into()));
        }
    };
    let standing = &instance.standing;
    let (served, began) = thread::join(
        rt,
        || answer_then_quit(rt, standing, &gate, listener),
        || replay_then_stop(rt, instance, opened, wanted, &gate),
    );
    match served {
        Ok(()) => began,
        Err(error) => {
            drop(began);
            Err(NotOpened::Fault(Fault::Machine(error)))
        }
    }
}

fn replay_then_stop<R>(
    rt: &R,
    instance: &Instance,
    opened: Opened<EtcdClient<R>>,
    wanted: Wanted<'_>,
    gate: &Gate,
) -> Result<Began<R, EtcdClient<R>>, NotOpened>
where
    R: Runtime + Files<File = File> + Print + Eprint,
{
    let began = open_allocator(rt, instance.alloc, instance.name(), opened, wanted);
    gate.stop();
    began
}

/// What a journal is to go on with under a service.
fn wanted_by<'a, R: Clock>(rt: &R, service: &'a Service) -> Wanted<'a> {
    Wanted {
        line: service.line(),
        jobs: service.jobs(),
        epoch: next_epoch(rt, 0),
        round: service.scrape_interval(),
    }
}

fn serve_began<R>(
    rt: &R,
    instance: &Instance,
    service: Service,
    configuration: ConfigurationFile,
    listener: TcpListener,
    device: Devices<R>,
    began: Began<R, EtcdClient<R>>,
) -> Result<End, Fault>
where
    R: Runtime + Files<File = File> + Print + Eprint,
{
    let Began { opened, archive } = began;
    let mut archive = archive;
    let journal_files::Opened {
        core,
        epoch,
        names,
        file,
        bytes,
        chain,
    } = opened;
    let file = file.map(|file| JournalFile::new(file, bytes, chain));
    if let Ok(here) = listener.local_addr() {
        log_address(rt, here);
    }
    let served = daemon::serve(
        rt,
        instance.alloc,
        service,
        listener,
        device,
        Journal { file, epoch, names },
        &mut archive,
        configuration,
        core,
    );
    let is_over = archive.is_over();
    drop(archive);
    match served {
        Ok(core) => {
            log_end(rt, core.total());
            drop(core);
            Ok(End::Done)
        }
        Err(_) if is_over => Ok(End::Deposed),
        Err(error) => Err(Fault::Machine(error)),
    }
}
