//! Instances that are made of another: one with nothing before, and one with caps.
ghost use Rattle.std.specs.Prelude.{◌≡◌, IfOk, length};
ghost use Rattle.price_certificate.specs.Problem.{bins_of};
ghost use Rattle.price_certificate.specs.Derived.{bare, capped};

use crate::instance::Instance;
use crate::rows::open_rows;
use crate::shape::nowhere;
use lists::{List, Plain};
use std::alloc::{AllocError, Global};

impl Instance {
    /// The instance with nothing before, so that only what is covered and what is left counts.
    pub fn bare(&self, alloc: Global) -> Result<Instance, AllocError>
        ensures { IfOk result (λ i. i ≡ bare self.now) }
    {
        let limits = self.limits.copy()?;
        let draining = self.draining.copy()?;
        let rows = self.rows.copy()?;
        let before = nowhere(alloc, self.items())?;
        Ok(Instance {
            version: self.version,
            limits,
            draining,
            rows,
            before: List::from_vec(before),
        })
    }

    /// The instance with these caps in place of its limits. A bin whose cap is 0 may have no item.
    pub fn capped(&self, alloc: Global, caps: &[u32]) -> Result<Instance, AllocError>
        requires { length caps.now ≡ bins_of self.now }
        ensures { IfOk result (λ i. i ≡ capped caps.now self.now) }
    {
        let limits = Vec::from_slice(alloc, caps)?;
        let draining = self.draining.copy()?;
        let rows = open_rows(alloc, &self.rows, caps)?;
        let before = self.before.copy()?;
        Ok(Instance {
            version: self.version,
            limits: List::from_vec(limits),
            draining,
            rows,
            before,
        })
    }
}
