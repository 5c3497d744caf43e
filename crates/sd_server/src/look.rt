//! What a look finds of a collector, which is no event.
ghost use Rattle.std.specs.Prelude.{IfOk};
ghost use Rattle.sd_server.specs.Looks.{FindsHeld, FindsList, IsLook};

use allocation_core::Core;
use fleet_events::{AllocationNumber, CollectorId, Round, TargetId};
use lists::List;
use std::alloc::AllocError;

/// What a look finds of a collector.
#[derive(Drop)]
pub(crate) struct Look {
    pub(crate) allocation: AllocationNumber,
    pub(crate) round: Round,
    /// How many targets its list would leave out, where lists are served in order.
    pub(crate) left_out: Option<u32>,
    /// Those that it holds, or that its list would have.
    pub(crate) targets: List<TargetId>,
}

/// What a collector holds, or what its list of a job would have if it were served now.
pub(crate) fn look_at(
    core: &Core,
    job: &str,
    id: CollectorId,
    is_ordered: bool,
) -> Result<Look, AllocError>
    ensures { IfOk result (IsLook core.now job.now id) }
{
    if is_ordered {
        look_at_list(core, job, id)
    } else {
        look_at_held(core, id)
    }
}

fn look_at_held(core: &Core, id: CollectorId) -> Result<Look, AllocError>
    ensures { IfOk result (FindsHeld core.now id) }
{
    Ok(Look {
        allocation: core.current(),
        round: core.round(),
        left_out: None,
        targets: core.held(id)?,
    })
}

fn look_at_list(core: &Core, job: &str, id: CollectorId) -> Result<Look, AllocError>
    ensures { IfOk result (FindsList core.now job.now id) }
{
    let list = core.list(id, job)?;
    let Ok(left_out) = u32::try_from(list.left_out.len()) else {
        return Err(AllocError);
    };
    Ok(Look {
        allocation: core.current(),
        round: core.round(),
        left_out: Some(left_out),
        targets: list.listed,
    })
}
