//! What a list has: targets with the series that their scrapes make.
use crate::url::Url;
use lists::{Plain, Text};
use std::alloc::AllocError;
use std::hash::{Hash, Hasher};

/// The labels of a series, as one text that decides them.
#[derive(Debug, Drop)]
pub struct Series {
    pub labels: Text,
}

/// A target of a list. Two are the same where they have one group in one job, whatever their numbers.
#[derive(Drop)]
pub struct Listed {
    /// The index of the job.
    pub job: u32,
    /// The group that is served, as a text without the target's number.
    pub group: Text,
    /// The target's number.
    pub target: u32,
    /// The series of its scrapes.
    pub series: Series,
    /// Whether no other target of the list has this series.
    pub alone: bool,
    /// Whether another one has it. Whose a scrape is, is then told by its URL.
    pub shared: bool,
    /// Where it is scraped.
    pub url: Url,
}

impl Plain for Series {
    fn copy(&self) -> Result<Series, AllocError> {
        let labels = self.labels.copy()?;
        Ok(Series { labels })
    }

    fn same(&self, other: &Series) -> bool {
        self.labels.same(&other.labels)
    }
}

impl PartialEq for Series {
    ghost use Rattle.std.proofs.Common.{rules};
    ghost use Rattle.std.specs.Cmp.Rules.{comparing};
    ghost use Rattle.agent_core.specs.Targets.{same_series};

    ghost eq = { same_series };

    ghost laws = { Prim.search (comparing, rules) };

    fn eq(&self, other: &Series) -> bool {
        self.labels.as_str() == other.labels.as_str()
    }
}

impl Eq for Series {
    ghost use Rattle.std.proofs.Common.{rules};
    ghost use Rattle.std.specs.Cmp.Rules.{comparing};

    ghost laws = { Prim.search (comparing, rules) };
}

impl Hash for Series {
    ghost use Rattle.std.proofs.Common.{rules};
    ghost use Rattle.std.specs.Hash as fed;
    ghost use Rattle.std.specs.Cmp.Rules.{comparing, hashing};

    ghost hash_input = { λ a. fed.str a.labels };

    ghost respects_eq = { Prim.search (hashing, rules) };

    fn hash<H: Hasher>(&self, state: &mut H) {
        self.labels.as_str().hash(state);
    }
}

impl PartialEq for Listed {
    ghost use Rattle.std.proofs.Common.{rules};
    ghost use Rattle.std.specs.Cmp.Rules.{comparing};
    ghost use Rattle.agent_core.specs.Targets.{same_group};

    ghost eq = { same_group };

    ghost laws = { Prim.search (comparing, rules) };

    fn eq(&self, other: &Listed) -> bool {
        self.job == other.job && self.group.as_str() == other.group.as_str()
    }
}

impl Eq for Listed {
    ghost use Rattle.std.proofs.Common.{rules};
    ghost use Rattle.std.specs.Cmp.Rules.{comparing};

    ghost laws = { Prim.search (comparing, rules) };
}

impl Hash for Listed {
    ghost use Rattle.std.specs.Prelude.{◌++◌};
    ghost use Rattle.std.proofs.Common.{rules};
    ghost use Rattle.std.specs.Hash as fed;
    ghost use Rattle.std.specs.Cmp.Rules.{comparing, hashing};

    ghost hash_input = { λ a. fed.u32 a.job ++ fed.str a.group };

    ghost respects_eq = { Prim.search (hashing, rules) };

    fn hash<H: Hasher>(&self, state: &mut H) {
        self.job.hash(state);
        self.group.as_str().hash(state);
    }
}
