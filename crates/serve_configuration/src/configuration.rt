//! The configuration file, as the service reads it again.
use crate::documents::{read_document, service_in, service_of_parts};
use crate::doors::admission_at;
use crate::etcd_words::etcd_of;
use crate::process::process_figures;
use command_faults::Fault;
use command_words::ServeOptions;
use lists::Text;
use service_state::ProcessFigures;
use service_tasks::{Configuration, Service};
use std::alloc::{AllocError, Global};
use std::net::SocketAddr;

/// The configuration file at a path.
#[derive(Drop)]
pub struct ConfigurationFile {
    host: HostRuntime,
    alloc: Global,
    path: String,
    /// Where the service listens.
    here: SocketAddr,
    /// For how many connections there are descriptors.
    most: u32,
    /// The journal that the command line names.
    journal: Option<String>,
    /// Whether the journal is in etcd.
    is_in_etcd: bool,
    /// What was read last and asks for a service.
    document: Vec<u8>,
}

impl ConfigurationFile {
    pub fn new(
        host: HostRuntime,
        alloc: Global,
        options: &ServeOptions<'_>,
        here: SocketAddr,
        most: u32,
        is_in_etcd: bool,
    ) -> Result<ConfigurationFile, AllocError> {
        let path = String::from_str(alloc, options.config)?;
        let journal = match options.journal {
            Some(journal) => Some(String::from_str(alloc, journal)?),
            None => None,
        };
        Ok(ConfigurationFile {
            host,
            alloc,
            path,
            here,
            most,
            journal,
            is_in_etcd,
            document: Vec::new(alloc),
        })
    }

    /// The journal that the command line names.
    fn journal(&self) -> Option<&str> {
        match &self.journal {
            Some(journal) => Some(journal.as_str()),
            None => None,
        }
    }

    /// Refuses a document that asks for what only a journal in etcd has, where the journal is a file, or the other way.
    fn check_etcd(&self, document: &[u8]) -> Result<(), Fault> {
        let path = self.path.as_str();
        let etcd = etcd_of(self.alloc, path, document, self.journal())?;
        drop(etcd);
        Ok(())
    }

    /// The document of the file, which asks for a service.
    fn valid_document(&self) -> Result<Vec<u8>, Fault> {
        let path = self.path.as_str();
        let document = read_document(&self.host, self.alloc, path)?;
        let service = service_in(self.alloc, path, document.as_slice(), self.is_in_etcd)?;
        let doors = admission_at(&self.host, path, service.doors(), self.here);
        drop(service);
        match doors {
            Ok(doors) => {
                drop(doors);
                self.check_etcd(document.as_slice())?;
                Ok(document)
            }
            Err(fault) => Err(fault),
        }
    }

    fn set_doors(&self, service: &mut Service) -> Result<(), Fault> {
        let path = self.path.as_str();
        let doors = admission_at(&self.host, path, service.doors(), self.here)?;
        service.set_doors(self.alloc, doors)?;
        Ok(())
    }

    /// The line that tells a fault, the first where it has several. It is empty where there is no memory for it.
    fn line_of(&self, fault: Fault) -> Text {
        let line = match fault {
            Fault::Told(lines) => {
                let line = lines.lines().next().unwrap_or("");
                format!(in self.alloc; "{line}\n")
            }
            Fault::Machine(error) => format!(in self.alloc; "{error}\n"),
        };
        Text::from_string(line.unwrap_or(String::new(self.alloc)))
    }
}

impl Configuration for ConfigurationFile {
    fn read(&mut self) -> Result<(), Text> {
        match self.valid_document() {
            Ok(document) => {
                self.document = document;
                Ok(())
            }
            Err(fault) => Err(self.line_of(fault)),
        }
    }

    fn service(&self) -> Option<Service> {
        let path = self.path.as_str();
        let document = self.document.as_slice();
        let mut service = service_of_parts(self.alloc, path, document, self.is_in_etcd).ok()?;
        if self.set_doors(&mut service).is_err() {
            drop(service);
            return None;
        }
        service.limit_connections(self.most);
        Some(service)
    }

    fn process(&self) -> ProcessFigures {
        process_figures(&self.host, self.alloc)
    }
}
