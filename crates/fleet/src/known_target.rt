//! Targets that were listed once. Two are the same where they have one text in one job.
use label_sets::Target;
use reach_rules::HasTarget;
use std::hash::{Hash, Hasher};

/// A target that some source listed once.
#[derive(Drop)]
pub struct KnownTarget {
    /// The index of the job.
    pub job: usize,
    pub target: Target,
}

impl HasTarget for KnownTarget {
    ghost final_target = { λ known. known.target };

    fn target(&self) -> &Target {
        &self.target
    }
}

impl PartialEq for KnownTarget {
    ghost use Rattle.std.proofs.Common.{rules};
    ghost use Rattle.std.specs.Cmp.Rules.{comparing};
    ghost use Rattle.fleet.specs.KnownTarget.{same_known};

    ghost eq = { same_known };

    ghost laws = { Prim.search (comparing, rules) };

    fn eq(&self, other: &KnownTarget) -> bool {
        self.job == other.job && self.target.text() == other.target.text()
    }
}

impl Eq for KnownTarget {
    ghost use Rattle.std.proofs.Common.{rules};
    ghost use Rattle.std.specs.Cmp.Rules.{comparing};

    ghost laws = { Prim.search (comparing, rules) };
}

impl Hash for KnownTarget {
    ghost use Rattle.std.specs.Prelude.{◌++◌};
    ghost use Rattle.std.proofs.Common.{rules};
    ghost use Rattle.std.specs.Hash as fed;
    ghost use Rattle.std.specs.Cmp.Rules.{comparing, hashing};
    ghost use Rattle.label_sets.specs.Target.{target_text};

    ghost hash_input = { λ a. fed.usize a.job ++ fed.str (target_text a.target) };

    ghost respects_eq = { Prim.search (hashing, rules) };

    fn hash<H: Hasher>(&self, state: &mut H) {
        self.job.hash(state);
        self.target.text().hash(state);
    }
}
