//! Whether a state is the renewal of another.
ghost use Rattle.std.specs.Prelude.{◌≡◌, ◌≢◌, ◌<◌, ℕ, AllPairs, IfErr, IfNone, IfOk, None, OnOk, Some, if◌then◌else◌, true};
ghost use Rattle.allocation_core.specs.Renewed.{IsWhyNot, renewal_refusal, renewed};
ghost use Rattle.allocation_core.specs.State.{current_pairs};
ghost use Rattle.audit.specs.Checks.{refused_why, renewal_fault, same_history};
ghost use Rattle.audit.specs.Laws.{IsWhole, ReadAlike};
ghost use Rattle.audit.specs.Renewals.{IsRenewalOf};

use crate::fault::Why;
use crate::laws::histories_tell;
use allocation_core::{Core, JobSpec, NotRenewed, RenewalError, Renewed, ReportRounds};
use core_history::write_history;
use lists::copies;
use std::alloc::{AllocError, Global};

/// Why the next allocator is not the renewal of the core under its own jobs, with reports of as many rounds, if it is not.
#[tactic(auto, unfolding(crate::specs::Checks::renewal_fault))]
pub(crate) fn renewal_fault(
    alloc: Global,
    core: Core,
    next: &Core,
) -> Result<Option<Why>, AllocError>
    ensures fault { IfOk result (λ o. o ≡ renewal_fault core next.now) }
    ensures renewal { IfOk result (λ o. IsWhole next.now → IfNone o (IsRenewalOf core next.now)) }
{
    histories_tell();
    let jobs = match copies(alloc, next.fleet().jobs()) {
        Ok(jobs) => jobs,
        Err(error) => {
            drop(core);
            return Err(error);
        }
    };
    match renewed_under(core, jobs, next.report_rounds()) {
        Ok(renewed) => {
            let why = other_state(alloc, &renewed, next);
            drop(renewed);
            why
        }
        Err(why) => why_refused(why),
    }
}

fn renewed_under(
    core: Core,
    jobs: Vec<JobSpec>,
    report_rounds: ReportRounds,
) -> Result<Core, RenewalError>
    ensures renewed { IfOk result (λ c. c ≡ renewed core jobs.items report_rounds) }
    ensures granted { OnOk result (renewal_refusal core jobs.items ≡ None) }
    ensures ascending { OnOk result (AllPairs (λ (a b : ℕ × ℕ). a.0 < b.0) (current_pairs core)) }
    ensures refused { IfErr result (λ why. IsWhyNot (renewal_refusal core jobs.items) why) }
{
    let _pairs = core.allocation();
    match core.renew(jobs, report_rounds) {
        Ok(Renewed { core, forgotten }) => {
            drop(forgotten);
            Ok(core)
        }
        Err(NotRenewed { core, why }) => {
            drop(core);
            Err(why)
        }
    }
}

fn other_state(alloc: Global, renewed: &Core, next: &Core) -> Result<Option<Why>, AllocError>
    ensures fault { IfOk result (λ o. o ≡ (if same_history renewed.now next.now then None else Some Why.OtherState)) }
    ensures alike { IfOk result (λ o. IfNone o (ReadAlike renewed.now next.now)) }
{
    if same_history(alloc, renewed, next)? {
        return Ok(None);
    }
    Ok(Some(Why::OtherState))
}

fn why_refused(why: RenewalError) -> Result<Option<Why>, AllocError>
    ensures why { IfOk result (λ o. o ≡ refused_why why) }
    ensures memory { OnOk result (why ≢ RenewalError.Memory) }
{
    match why {
        RenewalError::BadJobs => Ok(Some(Why::BadJobs)),
        RenewalError::TooManyBins => Ok(Some(Why::TooManyBins)),
        RenewalError::RoundsSpent => Ok(Some(Why::RoundsSpent)),
        RenewalError::Memory => Err(AllocError),
    }
}

/// Whether both are written as the same history.
#[tactic(auto, unfolding(crate::specs::Checks::same_history))]
fn same_history(alloc: Global, core: &Core, other: &Core) -> Result<bool, AllocError>
    ensures same { IfOk result (λ s. s ≡ same_history core.now other.now) }
    ensures alike { IfOk result (λ s. s ≡ true → ReadAlike core.now other.now) }
{
    let history = write_history(alloc, core)?;
    let other_history = write_history(alloc, other)?;
    Ok(history.as_str() == other_history.as_str())
}
