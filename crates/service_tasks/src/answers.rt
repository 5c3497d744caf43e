//! What asking a source comes to.
use file_configs::{FileText, FilesFault, groups_of_files};
use http_get::{Cause, FetchFault, Listing, RefreshError, Reply, heard, listed_in_files};
use lists::{List, Text};
use relabel::Rules;
use sd_documents::Job;
use std::alloc::{AllocError, Global};

/// What asking a source came to.
#[derive(Drop)]
pub(crate) enum Came {
    /// This was answered.
    Reply(Reply),
    /// There is no answer.
    Nothing(Cause),
    /// These are its files, or why they cannot be read.
    Files(Result<List<FileText>, FilesFault>),
}

/// Why a source gave no list.
#[derive(Drop)]
pub(crate) enum Failure {
    Nothing(Cause),
    Refused(RefreshError),
    Files(FilesFault),
}

/// What the job's source of this number lists by its answer. The job's rules are compiled for each.
pub(crate) fn list_in_reply(
    alloc: Global,
    job: &Job,
    number: u32,
    fetched: &Result<Reply, FetchFault>,
) -> Result<Listing, Failure> {
    match Rules::read(alloc, job.rules.as_slice()) {
        Ok(rules) => {
            let listing = heard(alloc, job, &rules, number, fetched);
            drop(rules);
            match listing {
                Ok(listing) => Ok(listing),
                Err(error) => Err(Failure::Refused(error)),
            }
        }
        Err(_) => Err(Failure::Nothing(Cause::Memory)),
    }
}

/// What the job's source of this number lists by its files.
pub(crate) fn list_in_files(
    alloc: Global,
    job: &Job,
    number: u32,
    files: Result<List<FileText>, FilesFault>,
) -> Result<Listing, Failure> {
    match files {
        Ok(files) => {
            let list = list_in(alloc, job, number, files.as_slice());
            drop(files);
            list
        }
        Err(fault) => Err(Failure::Files(fault)),
    }
}

fn list_in(alloc: Global, job: &Job, number: u32, files: &[FileText]) -> Result<Listing, Failure> {
    match Rules::read(alloc, job.rules.as_slice()) {
        Ok(rules) => {
            let list = list_by_rules(alloc, job, &rules, number, files);
            drop(rules);
            list
        }
        Err(_) => Err(Failure::Nothing(Cause::Memory)),
    }
}

fn list_by_rules(
    alloc: Global,
    job: &Job,
    rules: &Rules,
    number: u32,
    files: &[FileText],
) -> Result<Listing, Failure> {
    match groups_of_files(alloc, files) {
        Ok(groups) => {
            let listing = listed_in_files(alloc, job, rules, number, groups.as_slice());
            drop(groups);
            match listing {
                Ok(listing) => Ok(listing),
                Err(AllocError) => Err(Failure::Nothing(Cause::Memory)),
            }
        }
        Err(fault) => Err(Failure::Files(fault)),
    }
}

/// Why a source gave no list, in words. Empty where it gave one.
pub(crate) fn fault_in(alloc: Global, list: &Result<Listing, Failure>) -> Result<Text, AllocError> {
    match list {
        Ok(_) => Text::from_str(alloc, ""),
        Err(Failure::Nothing(cause)) => Text::from_str(alloc, cause.text()),
        Err(Failure::Refused(error)) => Ok(Text::from_string(format!(in alloc; "{error}")?)),
        Err(Failure::Files(fault)) => Ok(Text::from_string(format!(in alloc; "{fault}")?)),
    }
}
