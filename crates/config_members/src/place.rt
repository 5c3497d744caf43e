//! The places of a configuration that have members.
ghost use Rattle.std.specs.Prelude.{◌≡◌, map, IfOk, string_bytes};
ghost use Rattle.config_members.specs.Names.{names_read, other_names, part_name, member_way};

use crate::tables::{
    DOCUMENT_OTHERS, DOCUMENT_READ, FILES_READ, GLOBAL_OTHERS, GLOBAL_READ, GROUP_READ, JOB_OTHERS,
    JOB_READ, NO_OTHERS, RULE_READ, SOURCE_OTHERS, SOURCE_READ,
};
use std::alloc::{AllocError, Global};

/// A place that has members. The indices are those of a scrape config, and of an entry of one of its lists.
#[derive(Clone, Copy, Debug, PartialEq, Eq)]
pub enum Place {
    Document,
    Global,
    Job(usize),
    Entry(usize, Part, usize),
}

/// A list of a scrape config whose entries have members.
#[derive(Clone, Copy, Debug, PartialEq, Eq)]
pub enum Part {
    StaticConfigs,
    HttpSdConfigs,
    FileSdConfigs,
    RelabelConfigs,
}

impl Part {
    /// The name of the list.
    pub fn name(self) -> &'static str
        ensures { result.now ≡ part_name self }
    {
        match self {
            Part::StaticConfigs => "static_configs",
            Part::HttpSdConfigs => "http_sd_configs",
            Part::FileSdConfigs => "file_sd_configs",
            Part::RelabelConfigs => "relabel_configs",
        }
    }
}

impl Place {
    /// The names of the members that are read here.
    pub(crate) fn names_read(self) -> &'static [&'static str]
        ensures { map (λ s. s.now) result.now ≡ names_read self }
    {
        match self {
            Place::Document => DOCUMENT_READ.as_slice(),
            Place::Global => GLOBAL_READ.as_slice(),
            Place::Job(_) => JOB_READ.as_slice(),
            Place::Entry(_, Part::StaticConfigs, _) => GROUP_READ.as_slice(),
            Place::Entry(_, Part::HttpSdConfigs, _) => SOURCE_READ.as_slice(),
            Place::Entry(_, Part::FileSdConfigs, _) => FILES_READ.as_slice(),
            Place::Entry(_, Part::RelabelConfigs, _) => RULE_READ.as_slice(),
        }
    }

    /// The names of the members that Prometheus has here besides.
    pub(crate) fn other_names(self) -> &'static [&'static str]
        ensures { map (λ s. s.now) result.now ≡ other_names self }
    {
        match self {
            Place::Document => DOCUMENT_OTHERS.as_slice(),
            Place::Global => GLOBAL_OTHERS.as_slice(),
            Place::Job(_) => JOB_OTHERS.as_slice(),
            Place::Entry(_, Part::HttpSdConfigs, _) => SOURCE_OTHERS.as_slice(),
            Place::Entry(_, _, _) => NO_OTHERS.as_slice(),
        }
    }

    /// The way to the member of a name from the document.
    pub fn way_to(self, alloc: Global, name: &str) -> Result<String, AllocError>
        ensures { IfOk result (λ s. string_bytes s ≡ member_way self name.now) }
    {
        match self {
            Place::Document => String::from_str(alloc, name),
            Place::Global => format!(in alloc; "global.{name}"),
            Place::Job(job) => format!(in alloc; "scrape_configs[{job}].{name}"),
            Place::Entry(job, part, entry) => {
                let part = part.name();
                format!(in alloc; "scrape_configs[{job}].{part}[{entry}].{name}")
            }
        }
    }
}
