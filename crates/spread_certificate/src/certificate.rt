//! What a certificate document proposes for its instance.

use crate::spread::Spread;
use lists::Plain;
use price_certificate::Plan;
use std::alloc::AllocError;

/// What a certificate document proposes for its instance, with the prices that are to certify it.
#[derive(Debug, Drop)]
pub enum Certificate {
    /// A plan that is to be the best of all.
    Plan(Plan),
    /// A plan that is to be the best within caps.
    Spread(Spread),
}

impl Plain for Certificate {
    fn copy(&self) -> Result<Certificate, AllocError> {
        match self {
            Certificate::Plan(plan) => Ok(Certificate::Plan(plan.copy()?)),
            Certificate::Spread(spread) => Ok(Certificate::Spread(spread.copy()?)),
        }
    }

    fn same(&self, other: &Certificate) -> bool {
        match (self, other) {
            (Certificate::Plan(plan), Certificate::Plan(other)) => plan.same(other),
            (Certificate::Spread(spread), Certificate::Spread(other)) => spread.same(other),
            _ => false,
        }
    }
}
