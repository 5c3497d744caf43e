//! What the sources of a service are asked with.
use crate::documents::read_document;
use crate::etcd_words::etcd_of;
use command_words::ServeOptions;
use file_configs::{FileText, FilesFault, ReadFiles};
use file_sources::HostFiles;
use http_get::{Asker, FetchSeveral};
use lists::{List, Text};
use scrape_client::{HyperFetches, Lookups, start_lookups};
use std::alloc::{AllocError, AllocGlobal};
use std::fs::File;
use std::io;
use std::net::{Net, TcpListener, TcpStream};
use std::random::RandomSource;
use std::rt::Files;
use std::sync::{Arc, Wait};
use std::thread::Threads;
use std::time::{Clock, Duration};

/// Where the names of etcd's members are looked up: by who asks, and by who keeps a lease alive. One at a time is to ask each.
#[derive(Drop)]
pub struct EtcdLookups {
    pub asks: Arc<Lookups>,
    pub keeps: Arc<Lookups>,
}

/// Starts what looks up the names of etcd's members, where the options or the configuration say that the journal is there. What is wrong with them is told later.
pub fn etcd_lookups<R>(
    rt: &R,
    options: &ServeOptions<'_>,
) -> Result<Option<EtcdLookups>, AllocError>
where
    R: Wait
        + Threads
        + Net<Listener = TcpListener, Stream = TcpStream>
        + Files<File = File>
        + AllocGlobal
        + Send
        + Copy
        + Drop
        + 'static,
{
    if !is_in_etcd(rt, options) {
        return Ok(None);
    }
    let asks = start_lookups(rt)?;
    let keeps = start_lookups(rt)?;
    Ok(Some(EtcdLookups { asks, keeps }))
}

/// Whether the journal is in etcd, as far as the configuration can be read.
fn is_in_etcd<R: Files<File = File> + AllocGlobal>(rt: &R, options: &ServeOptions<'_>) -> bool {
    let alloc = rt.alloc();
    match read_document(rt, alloc, options.config) {
        Ok(document) => {
            let etcd = etcd_of(alloc, options.config, document.as_slice(), options.journal);
            matches!(&etcd, Ok(Some(_)))
        }
        Err(_) => false,
    }
}

/// What a service has of the machine that it is on, beside its own handle.
#[derive(Clone, Copy, Drop)]
pub struct Machine<'a> {
    pub host: HostRuntime,
    /// Where names are looked up.
    pub lookups: &'a Arc<Lookups>,
    /// Where those of etcd's members are, where the journal is in etcd.
    pub etcd: Option<&'a EtcdLookups>,
}

/// A device over HTTP, and the files of this machine.
#[derive(Drop)]
pub struct Devices<R> {
    http: HyperFetches<R>,
    files: HostFiles<HostRuntime>,
}

impl<R> Devices<R> {
    /// The devices of a service of the configuration at a path, which gives each fetch so much time.
    pub fn of(
        rt: &R,
        machine: Machine<'_>,
        path: &str,
        limit: Duration,
    ) -> Result<Devices<R>, AllocError>
    where
        R: AllocGlobal + Copy + Drop,
    {
        let files = HostFiles::beside(machine.host, rt.alloc(), path)?;
        let lookups = Arc::try_clone(machine.lookups)?;
        let http = HyperFetches::new(*rt, limit, lookups);
        Ok(Devices { http, files })
    }
}

impl<R: Wait + Clock + Net + RandomSource + AllocGlobal> FetchSeveral for Devices<R> {
    fn fetch_for<A: Asker>(&self, asker: &mut A) -> io::Result<()> {
        self.http.fetch_for(asker)
    }
}

impl<R> ReadFiles for Devices<R> {
    fn read_files(&self, patterns: &[Text]) -> Result<List<FileText>, FilesFault> {
        self.files.read_files(patterns)
    }
}
