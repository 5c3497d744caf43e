//! The command: what its options ask for, and what it tells of it.
use crate::end::End;
use crate::in_etcd::{Begun, serve_in_etcd};
use crate::instance::{Instance, check_instance};
use crate::running::serve_journal;
use command_faults::{Fault, status_of, tell};
use command_words::{ServeOptions, VERSION};
use etcd_settings::Settings;
use event_loops::Runtime;
use journal_files::is_same_file;
use log::{error, info};
use log_queue::LogQueue;
use logfmt::{Logfmt, Quoted};
use sd_documents::Job;
use serve_configuration::{
    ConfigurationFile, Devices, Machine, admission_at, etcd_of, hold_streams, listen_address,
    listener_at, most_connections, read_document, service_in, told_valid, warn_of, warn_of_fewer,
};
use service_tasks::Service;
use std::alloc::{AllocError, AllocGlobal, Global};
use std::fs::File;
use std::io;
use std::io::Write;
use std::net::{Net, SocketAddr, TcpListener, TcpStream};
use std::process::ExitCode;
use std::rt::Files;
use std::sync::atomic::AtomicU64;
use std::sync::{Arc, Wait};
use std::time::{Clock, Duration};

/// The status where another instance leads, or may.
const DEPOSED: u8 = 4;

/// How long the end waits for the last lines to be read, in milliseconds.
const LAST_LINES: u64 = 1_000;

/// Does what the options ask for, and gives the exit status: 0 where the service was told to end, 2 where it is not told what to do, 3 where
/// the machine failed it, 4 where another instance leads. What is logged is written to `queued`, a handle whose standard error is the queue. The last fault is told past that, by
/// `rt`, if somebody has read all before. By the machine's handle the configuration is read again.
pub fn serve<R, Q>(
    rt: &R,
    queued: &Q,
    machine: Machine<'_>,
    options: &ServeOptions<'_>,
    queue: &LogQueue,
) -> ExitCode
where
    R: Wait + Clock + Files<File = File> + AllocGlobal + Eprint + Copy,
    Q: Runtime + Files<File = File> + Print + Eprint,
{
    let _streams = hold_streams(rt, rt.alloc());
    let ended = serve_by(queued, machine, options, queue.lost());
    let is_read = queue.close(rt, Duration::from_millis(LAST_LINES));
    match ended {
        Ok(End::Done) => ExitCode::from(0),
        Ok(End::Deposed) => {
            if is_read {
                log_deposed(rt);
            }
            ExitCode::from(DEPOSED)
        }
        Err(fault) => {
            if is_read {
                tell(rt, "service", &fault);
            }
            status_of(&fault)
        }
    }
}

fn log_deposed<R: Eprint + Clock + Copy>(rt: &R) {
    error!(Logfmt(*rt); "another instance leads, or may: the service ends, and whoever starts it again has it stand by");
}

/// The first line of the log: which program begins, and over what.
fn log_begin<R: Eprint + Clock + Copy>(
    rt: &R,
    configuration: &str,
    journal: &Option<String>,
    service: &Service,
) {
    let version = Quoted(VERSION);
    let configuration = Quoted(configuration);
    let journal = Quoted(path_or_none(journal));
    let jobs = service.jobs().len();
    let collectors = service.collectors();
    info!(Logfmt(*rt); version:% = version, configuration:% = configuration, journal:% = journal, jobs, collectors; "allocd begins");
}

/// A path, which is empty where there is none.
fn path_or_none(path: &Option<String>) -> &str {
    match path {
        Some(path) => path.as_str(),
        None => "",
    }
}

fn written<R: Print>(rt: &R, text: &str) -> Result<(), Fault> {
    let mut writer = io::writer(rt);
    writer.write_all(text.as_bytes())?;
    writer.flush()?;
    Ok(())
}

fn serve_by<R>(
    rt: &R,
    machine: Machine<'_>,
    options: &ServeOptions<'_>,
    lost_lines: &Arc<AtomicU64>,
) -> Result<End, Fault>
where
    R: Runtime + Files<File = File> + Print + Eprint,
{
    let document = read_document(rt, rt.alloc(), options.config)?;
    let etcd = etcd_of(
        rt.alloc(),
        options.config,
        document.as_slice(),
        options.journal,
    );
    let is_in_etcd = matches!(&etcd, Ok(Some(_)));
    match service_of(
        rt.alloc(),
        options.config,
        document.as_slice(),
        lost_lines,
        is_in_etcd,
    ) {
        Ok(service) => match etcd {
            Ok(etcd) => serve_service(
                rt,
                machine,
                options,
                document.as_slice(),
                lost_lines,
                service,
                etcd,
            ),
            Err(fault) => {
                drop(service);
                Err(fault)
            }
        },
        Err(fault) => {
            drop(etcd);
            Err(fault)
        }
    }
}

/// The service of a document, with where the log counts what it loses, over a journal in etcd or not.
fn service_of(
    alloc: Global,
    path: &str,
    document: &[u8],
    lost_lines: &Arc<AtomicU64>,
    is_in_etcd: bool,
) -> Result<Service, Fault> {
    let lost_lines = Arc::try_clone(lost_lines)?;
    match service_in(alloc, path, document, is_in_etcd) {
        Ok(service) => Ok(service.with_log(lost_lines).with_version(VERSION)),
        Err(fault) => Err(fault),
    }
}

/// Serves what a document asks for, or tells that it is valid.
fn serve_service<R>(
    rt: &R,
    machine: Machine<'_>,
    options: &ServeOptions<'_>,
    document: &[u8],
    lost_lines: &Arc<AtomicU64>,
    service: Service,
    etcd: Option<Settings>,
) -> Result<End, Fault>
where
    R: Runtime + Files<File = File> + Print + Eprint,
{
    let mut service = service;
    match places_of(rt, options, &mut service) {
        Ok((here, journal)) => {
            let asked = Asked {
                options,
                document,
                lost_lines,
                here,
            };
            if options.check_config {
                let told = tell_checked(rt, &asked, &etcd, service.jobs());
                drop((service, etcd, journal));
                return done(told);
            }
            serve_at(rt, machine, &asked, service, journal, etcd)
        }
        Err(fault) => {
            drop((service, etcd));
            Err(fault)
        }
    }
}

fn done(told: Result<(), Fault>) -> Result<End, Fault> {
    match told {
        Ok(()) => Ok(End::Done),
        Err(fault) => Err(fault),
    }
}

/// Tells that a configuration is valid, also of a journal in etcd.
fn tell_checked<R: Files<File = File> + Print + AllocGlobal>(
    rt: &R,
    asked: &Asked<'_>,
    etcd: &Option<Settings>,
    jobs: &[Job],
) -> Result<(), Fault> {
    if let Some(settings) = etcd {
        check_instance(rt, asked, settings)?;
    }
    tell_valid(rt, asked.options.config, asked.document, jobs)
}

/// Where a service is to listen, with its doors there, and the path of its journal.
fn places_of<R: Files<File = File> + AllocGlobal>(
    rt: &R,
    options: &ServeOptions<'_>,
    service: &mut Service,
) -> Result<(SocketAddr, Option<String>), Fault> {
    let here = listen_address(rt, options, service)?;
    let doors = admission_at(rt, options.config, service.doors(), here)?;
    service.set_doors(rt.alloc(), doors)?;
    let journal = journal_of(rt.alloc(), options, service)?;
    match check_journal(rt, options.config, &journal) {
        Ok(()) => Ok((here, journal)),
        Err(fault) => Err(fault),
    }
}

fn tell_valid<R: Print + AllocGlobal>(
    rt: &R,
    path: &str,
    document: &[u8],
    jobs: &[Job],
) -> Result<(), Fault> {
    let valid = told_valid(rt.alloc(), path, document, jobs)?;
    written(rt, valid.as_str())
}

/// What a service was asked for.
#[derive(Clone, Copy)]
pub(crate) struct Asked<'a> {
    pub(crate) options: &'a ServeOptions<'a>,
    pub(crate) document: &'a [u8],
    pub(crate) lost_lines: &'a Arc<AtomicU64>,
    /// Where it is to listen.
    pub(crate) here: SocketAddr,
}

/// Serves at an address, over a journal in etcd or not.
fn serve_at<R>(
    rt: &R,
    machine: Machine<'_>,
    asked: &Asked<'_>,
    service: Service,
    journal: Option<String>,
    etcd: Option<Settings>,
) -> Result<End, Fault>
where
    R: Runtime + Files<File = File> + Print + Eprint,
{
    log_begin(rt, asked.options.config, &journal, &service);
    match etcd {
        Some(settings) => serve_over_etcd(rt, machine, asked, service, journal, settings),
        None => serve_over_files(rt, machine, asked, service, journal),
    }
}

fn serve_over_files<R>(
    rt: &R,
    machine: Machine<'_>,
    asked: &Asked<'_>,
    service: Service,
    journal: Option<String>,
) -> Result<End, Fault>
where
    R: Runtime + Files<File = File> + Print + Eprint,
{
    let mut service = service;
    match begin(rt, machine, asked, &mut service, false) {
        Ok((device, configuration, listener)) => {
            serve_journal(
                rt,
                rt.alloc(),
                service,
                configuration,
                listener,
                device,
                journal,
            )
        }
        Err(fault) => {
            drop((service, journal));
            Err(fault)
        }
    }
}

/// Serves over a journal in etcd.
fn serve_over_etcd<R>(
    rt: &R,
    machine: Machine<'_>,
    asked: &Asked<'_>,
    service: Service,
    journal: Option<String>,
    settings: Settings,
) -> Result<End, Fault>
where
    R: Runtime + Files<File = File> + Print + Eprint,
{
    let mut service = service;
    match begin(rt, machine, asked, &mut service, true) {
        Ok((device, configuration, listener)) => {
            match Instance::of(rt, machine, asked, &service, journal, settings) {
                Ok(instance) => {
                    let begun = Begun {
                        service,
                        configuration,
                        listener,
                        device,
                    };
                    serve_in_etcd(rt, &instance, asked, begun)
                }
                Err(fault) => {
                    drop((service, device, configuration, listener));
                    Err(fault)
                }
            }
        }
        Err(fault) => {
            drop((service, journal, settings));
            Err(fault)
        }
    }
}

/// What the sources of a service are asked with, the file of its configuration, and its listener.
fn begin<R>(
    rt: &R,
    machine: Machine<'_>,
    asked: &Asked<'_>,
    service: &mut Service,
    is_in_etcd: bool,
) -> Result<(Devices<R>, ConfigurationFile, TcpListener), Fault>
where
    R: Net<Listener = TcpListener, Stream = TcpStream>
        + Files<File = File>
        + Clock
        + AllocGlobal
        + Eprint
        + Copy
        + Drop,
{
    let (device, most) = devices_of(rt, machine, asked.options.config, service)?;
    match opened(rt, machine.host, asked, most, is_in_etcd) {
        Ok((configuration, listener)) => Ok((device, configuration, listener)),
        Err(fault) => {
            drop(device);
            Err(fault)
        }
    }
}

/// What the sources of a service are asked with, and for how many connections there are descriptors: it serves no more.
fn devices_of<R: Files<File = File> + Clock + AllocGlobal + Eprint + Copy + Drop>(
    rt: &R,
    machine: Machine<'_>,
    path: &str,
    service: &mut Service,
) -> Result<(Devices<R>, u32), Fault> {
    let most = most_connections(rt, rt.alloc())?;
    warn_of_fewer(rt, service.connections(), most);
    service.limit_connections(most);
    let device = Devices::of(rt, machine, path, service.fetch_timeout())?;
    Ok((device, most))
}

/// The file of the configuration, as it is read again, and the listener.
fn opened<R>(
    rt: &R,
    host: HostRuntime,
    asked: &Asked<'_>,
    most: u32,
    is_in_etcd: bool,
) -> Result<(ConfigurationFile, TcpListener), Fault>
where
    R: Net<Listener = TcpListener, Stream = TcpStream>
        + Files<File = File>
        + Clock
        + AllocGlobal
        + Eprint
        + Copy,
{
    warn_of(rt, rt.alloc(), asked.document)?;
    let alloc = rt.alloc();
    let here = asked.here;
    let configuration = ConfigurationFile::new(host, alloc, asked.options, here, most, is_in_etcd)?;
    let listener = listener_at(rt, here)?;
    Ok((configuration, listener))
}

/// The path of the journal: that of the command line, or else that of the configuration.
fn journal_of(
    alloc: Global,
    options: &ServeOptions<'_>,
    service: &Service,
) -> Result<Option<String>, AllocError> {
    match options.journal.or(service.journal()) {
        Some(path) => Ok(Some(String::from_str(alloc, path)?)),
        None => Ok(None),
    }
}

/// Refuses a journal in the configuration's own file.
fn check_journal<R: Files<File = File> + AllocGlobal>(
    rt: &R,
    config: &str,
    journal: &Option<String>,
) -> Result<(), Fault> {
    match journal {
        Some(path) if is_same_file(rt, config, path.as_str()) => {
            Err(Fault::Told(own_configuration(rt.alloc(), path.as_str())?))
        }
        _ => Ok(()),
    }
}

fn own_configuration(alloc: Global, path: &str) -> Result<String, AllocError> {
    format!(in alloc;
        "{path}: this is the configuration, so no journal can be kept there: name another file"
    )
}
