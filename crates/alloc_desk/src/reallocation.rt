//! Reallocation: the best plan of the moment is found and installed.
ghost use Rattle.std.specs.Prelude.{◌≡◌, IfOk, OnErr};
ghost use Rattle.allocation_core.specs.Installed.{IsInstalled};
ghost use Rattle.alloc_desk.specs.Reallocation.{IsReallocation};

use allocation_core::{Answer, Core, Event};
use assign_engine::solve;
use std::alloc::{AllocError, Global};

/// Finds a certified plan for the core's instance and installs it. The plan is never refused: the answer is Published, or
/// Unchanged where the current allocation has its pairs, or NumbersSpent.
pub fn reallocate(alloc: Global, core: &mut Core) -> Result<Answer, AllocError>
    ensures installed { IfOk result (IsInstalled core.old) }
    ensures step { IfOk result (IsReallocation core.old core.new) }
    ensures err { OnErr result (core.new ≡ core.old) }
{
    let instance = core.instance()?;
    let (plan, _work) = solve(alloc, &instance)?;
    core.apply(Event::Install(plan))
}
