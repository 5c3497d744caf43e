//! Why a document is not read.
use label_sets::LabelError;
use lists::Text;
use std::alloc::AllocError;
use std::fmt;
use thiserror::Error;

/// Why a document was not read.
#[derive(Debug, Drop, Error)]
pub enum SdError {
    #[error("no JSON")]
    NotJson,
    /// The index of a scrape configuration, and the member that has another shape.
    #[error("another shape of {1} at {0}")]
    Shape(usize, Member),
    #[error("no label name")]
    BadLabelName,
    /// The index of a scrape configuration whose name an earlier one has.
    #[error("the name of the job at {0} is taken")]
    RepeatedJob(usize),
    /// The name of a member for a service discovery that is not supported.
    #[error("service discovery by {} is not supported", .0.as_str())]
    UnsupportedDiscovery(Text),
    #[error("too many {0}")]
    TooMany(Limit),
    #[error("no memory")]
    Memory,
}

/// A part of a document, named as its member where it is one.
#[derive(Clone, Copy, Debug, PartialEq, Eq)]
pub enum Member {
    ScrapeConfigs,
    JobName,
    /// A number of any member that is no integer of 64 bits.
    Number,
    MetricsPath,
    Scheme,
    TargetLimit,
    Params,
    StaticConfigs,
    HttpSdConfigs,
    RelabelConfigs,
    /// A list of target groups that is a document of its own.
    Groups,
}

/// What a document may have too many of.
#[derive(Clone, Copy, Debug, PartialEq, Eq)]
pub enum Limit {
    Jobs,
    Sources,
    Rules,
    Targets,
}

impl Member {
    ghost use Rattle.std.specs.Prelude.{◌≡◌};
    ghost use Rattle.sd_documents.specs.Names.{member_name};

    /// The member's name, or what stands for it.
    pub fn name(&self) -> &'static str
        ensures { result.now ≡ member_name self.now }
    {
        match self {
            Member::ScrapeConfigs => "scrape_configs",
            Member::JobName => "job_name",
            Member::Number => "number",
            Member::MetricsPath => "metrics_path",
            Member::Scheme => "scheme",
            Member::TargetLimit => "target_limit",
            Member::Params => "params",
            Member::StaticConfigs => "static_configs",
            Member::HttpSdConfigs => "http_sd_configs",
            Member::RelabelConfigs => "relabel_configs",
            Member::Groups => "groups",
        }
    }
}

impl Limit {
    ghost use Rattle.std.specs.Prelude.{◌≡◌};
    ghost use Rattle.sd_documents.specs.Names.{limit_name};

    pub fn name(&self) -> &'static str
        ensures { result.now ≡ limit_name self.now }
    {
        match self {
            Limit::Jobs => "jobs",
            Limit::Sources => "sources",
            Limit::Rules => "rules",
            Limit::Targets => "targets",
        }
    }
}

impl fmt::Display for Member {
    ghost use Rattle.std.specs.Prelude.{Some};
    ghost use Rattle.sd_documents.specs.Names.{member_name};

    ghost output = { λ m. Some (member_name m) };

    fn fmt<W: fmt::Write>(&self, f: &mut fmt::Formatter<W>) -> fmt::Result {
        f.write_str(self.name())
    }
}

impl fmt::Display for Limit {
    ghost use Rattle.std.specs.Prelude.{Some};
    ghost use Rattle.sd_documents.specs.Names.{limit_name};

    ghost output = { λ l. Some (limit_name l) };

    fn fmt<W: fmt::Write>(&self, f: &mut fmt::Formatter<W>) -> fmt::Result {
        f.write_str(self.name())
    }
}

impl From<AllocError> for SdError {
    ghost use Rattle.std.specs.Prelude.{◌≡◌};
    ghost use Rattle.sd_documents.specs.declared.error.SdError.TheVariants.{Memory};

    ghost from_gives = { λ _ e. e ≡ Memory };

    fn from(_refused: AllocError) -> SdError {
        SdError::Memory
    }
}

impl From<LabelError> for SdError {
    ghost use Rattle.std.specs.Prelude.{◌≡◌};
    ghost use Rattle.sd_documents.specs.Refused.{refused_as};

    ghost from_gives = { λ l e. e ≡ refused_as l };

    fn from(refused: LabelError) -> SdError {
        match refused {
            LabelError::BadLabelName => SdError::BadLabelName,
            LabelError::Memory => SdError::Memory,
        }
    }
}
