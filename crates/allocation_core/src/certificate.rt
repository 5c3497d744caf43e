//! The certificate before the first allocation: the instance and the plan of nothing.
ghost use Rattle.std.specs.Prelude.{◌≡◌, [], IfOk};
ghost use Rattle.price_certificate.specs.declared.version.Version.TheVariants.{Two};

use lists::List;
use price_certificate::{Instance, InstanceError, Plan};
use std::alloc::{AllocError, Global};

/// The instance of nothing.
pub(crate) fn empty_instance(alloc: Global) -> Result<Instance, AllocError>
    ensures { IfOk result (λ i. i ≡ record { version = Two; limits = []; draining = []; rows = []; before = [] }) }
{
    match Instance::new2(
        alloc,
        List::new(alloc),
        List::new(alloc),
        List::new(alloc),
        List::new(alloc),
    ) {
        Ok(instance) => Ok(instance),
        Err(InstanceError::Memory) => Err(AllocError),
        Err(InstanceError::Shape) => unreachable!(),
    }
}

/// The plan of nothing.
pub(crate) fn empty_plan(alloc: Global) -> Plan
    ensures { result ≡ record { pairs = []; item_prices = []; bin_prices = [] } }
{
    Plan {
        pairs: List::new(alloc),
        item_prices: List::new(alloc),
        bin_prices: List::new(alloc),
    }
}
