//! One journal after another.
ghost use Rattle.std.specs.Prelude.{◌≡◌, IfNone, IfOk, OnOk};
ghost use Rattle.audit.specs.Checks.{begins, checked, file_checked, first_fault, first_fault_of};
ghost use Rattle.audit.specs.Laws.{IsWhole};
ghost use Rattle.audit.specs.Renewals.{BeginsWithRenewal, FileBeginsWithRenewal, IsRenewalOf};

use crate::fault::{Fault, unreadable, wrong_digest};
use crate::first_line::first_line;
use crate::laws::opened_are_whole;
use crate::renewal::renewal_fault;
use allocation_core::Core;
use replay_lines::{Resumption, resume};
use sealed_lines::{is_sealed, unsealed};
use std::alloc::{AllocError, Global};

/// What the journal of a file leads to, or its first fault: a wrong digest comes before all others.
#[tactic(auto, unfolding(crate::specs::Checks::file_checked))]
pub(crate) fn file_checked(
    alloc: Global,
    before: Option<Core>,
    file: &[u8],
) -> Result<Result<Resumption, Fault>, AllocError>
    ensures checked { IfOk result (λ r. r ≡ file_checked before file.now) }
    ensures renewal { IfOk result (λ r. OnOk r (FileBeginsWithRenewal before file.now)) }
{
    if !is_sealed(file) {
        return checked(alloc, before, file);
    }
    match unsealed(alloc, file) {
        Ok(Ok(plain)) => checked(alloc, before, plain.text.as_slice()),
        Ok(Err(wrong)) => {
            drop(before);
            Ok(Err(wrong_digest(wrong)))
        }
        Err(error) => {
            drop(before);
            Err(error)
        }
    }
}

/// What a journal leads to, or its first fault. It begins with the renewal of the core, if there is one.
#[tactic(auto, unfolding(crate::specs::Checks::checked))]
fn checked(
    alloc: Global,
    before: Option<Core>,
    journal: &[u8],
) -> Result<Result<Resumption, Fault>, AllocError>
    ensures checked { IfOk result (λ r. r ≡ checked before journal.now) }
    ensures renewal { IfOk result (λ r. OnOk r (BeginsWithRenewal before journal.now)) }
{
    if let Some(fault) = first_fault_of(alloc, before, journal)? {
        return Ok(Err(fault));
    }
    match resume(alloc, journal)? {
        Ok(resumption) => Ok(Ok(resumption)),
        Err(damage) => Ok(Err(unreadable(damage))),
    }
}

fn first_fault_of(
    alloc: Global,
    before: Option<Core>,
    journal: &[u8],
) -> Result<Option<Fault>, AllocError>
    ensures fault { IfOk result (λ o. o ≡ first_fault_of before journal.now) }
    ensures renewal { IfOk result (λ o. IfNone o (BeginsWithRenewal before journal.now)) }
{
    match before {
        Some(core) => first_fault(alloc, core, journal),
        None => Ok(None),
    }
}

/// What is wrong with the first line of a journal that follows the core.
#[tactic(auto, unfolding(crate::specs::Checks::first_fault))]
fn first_fault(alloc: Global, core: Core, journal: &[u8]) -> Result<Option<Fault>, AllocError>
    ensures fault { IfOk result (λ o. o ≡ first_fault core journal.now) }
    ensures renewal { IfOk result (λ o. IfNone o (BeginsWithRenewal (Some core) journal.now)) }
{
    opened_are_whole();
    match resume(alloc, first_line(journal)) {
        Ok(Ok(start)) => {
            let fault = start_fault(alloc, core, &start.core);
            drop(start);
            fault
        }
        Ok(Err(damage)) => {
            drop(core);
            Ok(Some(unreadable(damage)))
        }
        Err(error) => {
            drop(core);
            Err(error)
        }
    }
}

fn start_fault(alloc: Global, core: Core, start: &Core) -> Result<Option<Fault>, AllocError>
    ensures fault { IfOk result (λ o. o ≡ begins core start.now) }
    ensures renewal { IfOk result (λ o. IsWhole start.now → IfNone o (IsRenewalOf core start.now)) }
{
    match renewal_fault(alloc, core, start)? {
        Some(why) => Ok(Some(Fault { line: 1, why })),
        None => Ok(None),
    }
}
