//! The names of collectors.
ghost use Rattle.std.specs.Prelude.{◌≡◌, ◌↔◌, IfOk, IsTrue, false};
ghost use Rattle.reach_rules.specs.Name.{is_collector_name};

use crate::error::NameError;
use lists::{Plain, Text};
use std::alloc::{AllocError, Global};
use std::cmp::Ordering;
use std::convert::AsStr;
use std::marker::Model;

/// A collector's name. Contracts see its bytes.
#[derive(Debug, Drop)]
pub struct CollectorName {
    text: Text,
}

/// The most bytes of a name.
pub const LONGEST_NAME: usize = 128;

impl Model for CollectorName {
    ghost use Rattle.std.specs.Prelude.{List, ℕ, IsTrue};
    ghost use Rattle.reach_rules.specs.Name.{is_collector_name};

    ghost Value = { List ℕ };

    ghost view = { λ n. n.text };

    ghost invariant = { λ n. IsTrue (is_collector_name n.text) };
}

impl CollectorName {
    /// The name that the text is.
    pub fn read(alloc: Global, text: &str) -> Result<CollectorName, NameError>
        ensures name { IfOk result (λ n. n ≡ text.now) }
        ensures bad { (result ≡ Err NameError.BadName) ↔ (is_collector_name text.now ≡ false) }
    {
        if text.is_empty() || text.len() > LONGEST_NAME {
            return Err(NameError::BadName);
        }
        match Text::from_str(alloc, text) {
            Ok(text) => Ok(CollectorName { text }),
            Err(_) => Err(NameError::Memory),
        }
    }

    pub fn as_str(&self) -> &str
        ensures text { result.now ≡ self.now }
        ensures name { IsTrue (is_collector_name self.now) }
    {
        self.text.as_str()
    }
}

impl AsStr for CollectorName {
    ghost text = { λ n. n };

    fn as_str(&self) -> &str {
        self.text.as_str()
    }
}

impl Plain for CollectorName {
    fn copy(&self) -> Result<CollectorName, AllocError> {
        let text = self.text.copy()?;
        Ok(CollectorName { text })
    }

    fn same(&self, other: &CollectorName) -> bool {
        self.text.same(&other.text)
    }
}

impl PartialEq for CollectorName {
    ghost use Rattle.std.proofs.Common.{rules};
    ghost use Rattle.std.specs.Cmp.Rules.{comparing};
    ghost use Rattle.std.specs.Str.{bytes_eq};

    ghost eq = { bytes_eq };

    ghost laws = { Prim.search (comparing, rules) };

    fn eq(&self, other: &CollectorName) -> bool {
        self.text.as_str() == other.text.as_str()
    }
}

impl Eq for CollectorName {
    ghost use Rattle.std.proofs.Common.{rules};
    ghost use Rattle.std.specs.Cmp.Rules.{comparing};

    ghost laws = { Prim.search (comparing, rules) };
}

impl PartialOrd for CollectorName {
    ghost use Rattle.std.proofs.Common.{rules};
    ghost use Rattle.std.specs.Cmp.Rules.{comparing};
    ghost use Rattle.std.specs.Cmp.{partial_order_from_own_ties};
    ghost use Rattle.std.specs.Ordering.{as_partial_cmp};
    ghost use Rattle.reach_rules.specs.Name.{byte_cmp};

    ghost partial_cmp = { as_partial_cmp byte_cmp };

    ghost laws = { partial_order_from_own_ties (Prim.search (comparing, rules)) (Prim.search (comparing, rules)) };

    fn partial_cmp(&self, other: &CollectorName) -> Option<Ordering> {
        Some(self.cmp(other))
    }
}

impl Ord for CollectorName {
    ghost use Rattle.std.proofs.Common.{rules};
    ghost use Rattle.std.specs.Cmp.Rules.{comparing};
    ghost use Rattle.reach_rules.specs.Name.{byte_cmp};

    ghost cmp = { byte_cmp };

    ghost total = { Prim.search (comparing, rules) };

    ghost matches_partial_cmp = { Prim.search (comparing, rules) };

    ghost matches_eq = { Prim.search (comparing, rules) };

    fn cmp(&self, other: &CollectorName) -> Ordering {
        self.text.as_str().cmp(other.text.as_str())
    }
}
