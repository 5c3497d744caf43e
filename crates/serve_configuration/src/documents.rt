//! The configuration file.
use allocation_core::ReportRounds;
use command_faults::Fault;
use config_faults::faults_of;
use config_secrets::without_secrets;
use durable_journal::{configuration_line, with_report_rounds};
use file_configs::with_sources;
use json_values::{parse, text_of};
use lists::Text;
use sd_documents::{Config, SdError, read_config};
use serde_json::Value;
use service_settings::{Settings, SettingsError, read_settings};
use service_tasks::{Service, ServiceError};
use std::alloc::{AllocError, Global};
use std::fs::File;
use std::io;
use std::io::Read;
use std::rt::Files;

/// The most bytes of a configuration: 64 MiB.
const LONGEST_CONFIGURATION: u64 = 67_108_864;

/// How long a service over a journal in etcd goes on once nothing is kept, in milliseconds.
const AT_ONCE: u64 = 1;

/// What stands in the rules of an operator's configuration for the number of the shard, of which there is one here.
const SHARD: &str = "$(SHARD)";

/// What is told of a configuration without jobs.
const NO_JOBS: &str =
    "scrape_configs: no job: all targets would be dropped; set allocator.allow_no_jobs to true where that is meant";

/// Reads the document of a configuration file.
pub fn read_document<R: Files<File = File>>(
    rt: &R,
    alloc: Global,
    path: &str,
) -> Result<Vec<u8>, Fault> {
    let document = match read_file(rt, alloc, path) {
        Ok(document) => document,
        Err(error) => return Err(Fault::Told(format!(in alloc; "{path}: {error}")?)),
    };
    if document.len() as u64 > LONGEST_CONFIGURATION {
        return Err(Fault::Told(format!(in alloc; "{path}: too long")?));
    }
    Ok(document)
}

/// The service that the document of a configuration file asks for, over a journal in etcd or not. Where it is faulty its faults are told, a line each.
pub fn service_in(
    alloc: Global,
    path: &str,
    document: &[u8],
    is_in_etcd: bool,
) -> Result<Service, Fault> {
    match faults_of(alloc, path, document)? {
        Some(lines) => Err(Fault::Told(lines)),
        None => service_of_parts(alloc, path, document, is_in_etcd),
    }
}

/// The service of a document in which no fault was found.
pub(crate) fn service_of_parts(
    alloc: Global,
    path: &str,
    document: &[u8],
    is_in_etcd: bool,
) -> Result<Service, Fault> {
    match shown_text(alloc, path, document) {
        Ok(text) => service_of_shown(alloc, path, text.as_str().as_bytes(), is_in_etcd),
        Err(fault) => Err(fault),
    }
}

/// A document without its secrets, with its sources of files as sources with a URL, and with 0 for the number of the shard: nobody is shown a
/// secret, no journal has it, and a source is told in one way alone.
fn shown_text(alloc: Global, path: &str, document: &[u8]) -> Result<Text, Fault> {
    match parse(alloc, document)? {
        Some(value) => {
            let text = shown_text_of(alloc, &value);
            drop(value);
            Ok(text?)
        }
        None => Err(Fault::Told(format!(in alloc; "{path}: no JSON")?)),
    }
}

fn shown_text_of(alloc: Global, value: &Value) -> Result<Text, AllocError> {
    let shown = without_secrets(alloc, value)?;
    let text = text_with_sources(alloc, &shown);
    drop(shown);
    let text = text?;
    Ok(Text::from_string(text.as_str().replace(alloc, SHARD, "0")?))
}

fn text_with_sources(alloc: Global, value: &Value) -> Result<Text, AllocError> {
    let value = with_sources(alloc, value)?;
    let text = text_of(alloc, &value);
    drop(value);
    text
}

/// The service of a document without secrets.
fn service_of_shown(
    alloc: Global,
    path: &str,
    document: &[u8],
    is_in_etcd: bool,
) -> Result<Service, Fault> {
    let config = config_in(alloc, path, document)?;
    match settings_for(alloc, path, document, is_in_etcd) {
        Ok(settings) => match line_for(alloc, path, document, &config, &settings) {
            Ok(line) => service_of(alloc, path, line, config, settings),
            Err(fault) => {
                drop((config, settings));
                Err(fault)
            }
        },
        Err(fault) => {
            drop(config);
            Err(fault)
        }
    }
}

/// The line of a document, which has jobs unless it may have none.
fn line_for(
    alloc: Global,
    path: &str,
    document: &[u8],
    config: &Config,
    settings: &Settings,
) -> Result<Text, Fault> {
    if config.jobs.is_empty() && !settings.allow_no_jobs {
        return Err(Fault::Told(format!(in alloc; "{path}: {NO_JOBS}")?));
    }
    line_in(alloc, path, document, settings.report_rounds)
}

/// A document as one line, which says of how many rounds reports are booked.
fn line_in(alloc: Global, path: &str, document: &[u8], rounds: u32) -> Result<Text, Fault> {
    match configuration_line(alloc, document)? {
        Some(line) => line_with_rounds(alloc, &line, rounds),
        None => Err(Fault::Told(format!(in alloc; "{path}: no JSON")?)),
    }
}

fn line_with_rounds(alloc: Global, line: &Text, rounds: u32) -> Result<Text, Fault> {
    let rounds = ReportRounds::read(rounds).unwrap_or(ReportRounds::least());
    let line = with_report_rounds(alloc, line.as_str().as_bytes(), rounds)?;
    match String::from_utf8(line) {
        Ok(line) => Ok(Text::from_string(line)),
        Err(_) => Err(Fault::Machine(io::ErrorKind::InvalidData.into())),
    }
}

fn config_in(alloc: Global, path: &str, document: &[u8]) -> Result<Config, Fault> {
    match read_config(alloc, document) {
        Ok(config) => Ok(config),
        Err(SdError::Memory) => Err(AllocError.into()),
        Err(error) => Err(Fault::Told(format!(in alloc; "{path}: {error}")?)),
    }
}

/// The settings of a document. Over a journal in etcd nothing is waited for once nothing is kept: another instance leads then.
fn settings_for(
    alloc: Global,
    path: &str,
    document: &[u8],
    is_in_etcd: bool,
) -> Result<Settings, Fault> {
    let mut settings = settings_in(alloc, path, document)?;
    if is_in_etcd {
        settings.give_up = AT_ONCE;
    }
    Ok(settings)
}

pub fn settings_in(alloc: Global, path: &str, document: &[u8]) -> Result<Settings, Fault> {
    match read_settings(alloc, document) {
        Ok(settings) => Ok(settings),
        Err(SettingsError::Memory) => Err(AllocError.into()),
        Err(error) => {
            let line = error.line(alloc)?;
            Err(Fault::Told(format!(in alloc; "{path}: {line}")?))
        }
    }
}

fn service_of(
    alloc: Global,
    path: &str,
    line: Text,
    config: Config,
    settings: Settings,
) -> Result<Service, Fault> {
    match Service::of(alloc, line, config, settings) {
        Ok(service) => Ok(service),
        Err(ServiceError::Memory) => Err(AllocError.into()),
        Err(ServiceError::Rules { job, error }) => {
            let line = format!(in alloc; "{path}: scrape_configs[{job}].relabel_configs: {error}")?;
            Err(Fault::Told(line))
        }
    }
}

fn read_file<R: Files<File = File>>(rt: &R, alloc: Global, path: &str) -> io::Result<Vec<u8>> {
    let mut bytes = Vec::new(alloc);
    File::open(rt, path)?
        .take(LONGEST_CONFIGURATION + 1)
        .read_to_end(&mut bytes)?;
    Ok(bytes)
}
