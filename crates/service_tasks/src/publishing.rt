//! What is noted of an allocation that was published.
ghost use Rattle.std.specs.Prelude.{◌≡◌, IfOk};
ghost use Rattle.price_certificate.specs.Faults.{verdict_of};
ghost use Rattle.alloc_desk.specs.Reached.{Reached};
ghost use Rattle.service_tasks.specs.Published.{changes_at, changes_in};

use crate::logging::{log_error, log_warning};
use crate::moves::moves_of;
use crate::shared::Shared;
use alloc_desk::Pass;
use allocation_core::Answer;
use kept_journal::JournalName;
use lists::{List, Text};
use log::info;
use logfmt::{Logfmt, Milliseconds, timestamp};
use price_certificate::{Instance, Plan, Verdict, check};
use service_state::{AllocationNote, MoveNote, untold_moves};
use std::alloc::{AllocError, Global};
use std::sync::Wait;
use std::sync::ledger::Ledger;
use std::time::{Clock, Instant};

/// What an allocation comes to beside the one before it, as the checker counts it.
#[derive(Clone, Copy, Drop)]
pub(crate) struct Changes {
    /// How many targets somebody holds.
    pub(crate) covered: u64,
    /// How many live targets a live collector held before and does not hold any more.
    pub(crate) moved: u64,
    /// How many targets are with a draining collector.
    pub(crate) left: u64,
}

impl<R: Wait + Clock + Eprint + Copy, L: Ledger, B: Ledger, N: JournalName> Shared<R, L, B, N> {
    /// How many milliseconds went by, 0 where there is no clock.
    pub(crate) fn milliseconds_since(&self, begun: Option<Instant>) -> u64 {
        match (begun, Instant::now(&self.rt)) {
            (Some(begun), Ok(now)) => {
                let passed = now.saturating_duration_since(begun).as_millis();
                u64::try_from(passed).unwrap_or(u64::MAX)
            }
            _ => 0,
        }
    }

    /// Notes for those who look at the service what was published.
    pub(crate) fn note_published(&self, pass: &mut Pass<L, B, N>, number: u32, milliseconds: u64) {
        self.state
            .count_event(&self.rt, self.published_by(), &Answer::Published(number));
        match self.last_changes(pass) {
            Ok(Some(changes)) => {
                self.log_published(number, changes, milliseconds);
                self.note_or_warn(pass, number, changes, milliseconds);
            }
            Ok(None) => {
                self.log_uncounted(number, milliseconds);
                log_error(
                    &self.rt,
                    "the checker refuses an allocation that was published",
                );
            }
            Err(AllocError) => {
                self.log_uncounted(number, milliseconds);
                log_warning(&self.rt, "no memory to note an allocation");
            }
        }
    }

    fn log_published(&self, allocation: u32, changes: Changes, milliseconds: u64) {
        let (covered, moved, left) = (changes.covered, changes.moved, changes.left);
        let duration = Milliseconds(milliseconds);
        info!(Logfmt(self.rt); allocation, covered, moved, left, duration:% = duration; "allocation published");
    }

    /// The same without what it comes to, which is not known.
    fn log_uncounted(&self, allocation: u32, milliseconds: u64) {
        let duration = Milliseconds(milliseconds);
        info!(Logfmt(self.rt); allocation, duration:% = duration; "allocation published");
    }

    /// What the allocation that was published last comes to beside the one before it: what the checker's verdict over its certificate counts.
    /// None where the checker refuses it. The lock is held while the certificate is copied, and not while it is checked.
    fn last_changes(&self, pass: &mut Pass<L, B, N>) -> Result<Option<Changes>, AllocError>
        ensures { IfOk result (λ changes. Reached N.opening pass.old (λ h. changes ≡ changes_at h.state)) }
    {
        let (instance, plan) = self.desk.certificate(&self.rt, pass)?;
        let changes = changes_of(self.alloc, &instance, &plan);
        drop((instance, plan));
        changes
    }

    fn note_or_warn(
        &self,
        pass: &mut Pass<L, B, N>,
        number: u32,
        changes: Changes,
        milliseconds: u64,
    ) {
        let noted = match self.last_moves(pass, number) {
            Ok(moves) => self.note_changes(number, changes, moves, milliseconds),
            Err(AllocError) => Err(AllocError),
        };
        if noted.is_err() {
            log_warning(&self.rt, "no memory to note an allocation");
        }
    }

    /// What moved from whom to whom with the current allocation, which has this number.
    fn last_moves(
        &self,
        pass: &mut Pass<L, B, N>,
        number: u32,
    ) -> Result<List<MoveNote>, AllocError> {
        let alloc = self.alloc;
        self.desk.read(&self.rt, pass, |record| {
            moves_of(alloc, record.core(), number)
        })
    }

    fn note_changes(
        &self,
        number: u32,
        changes: Changes,
        moves: List<MoveNote>,
        milliseconds: u64,
    ) -> Result<(), AllocError> {
        let Some(at) = timestamp(&self.rt, self.alloc) else {
            drop(moves);
            return Err(AllocError);
        };
        let more_moves = untold_moves(changes.moved, moves.as_slice());
        let note = AllocationNote {
            number,
            at: Text::from_string(at),
            covered: changes.covered,
            moved: changes.moved,
            left: changes.left,
            milliseconds,
            moves,
            more_moves,
        };
        self.state.note_allocation(&self.rt, note)
    }
}

/// What the checker's verdict over a plan counts. None where it refuses the plan.
fn changes_of(
    alloc: Global,
    instance: &Instance,
    plan: &Plan,
) -> Result<Option<Changes>, AllocError>
    ensures { IfOk result (λ changes. changes ≡ changes_in (verdict_of instance.now plan.now.pairs plan.now.item_prices plan.now.bin_prices)) }
{
    let verdict = check(alloc, instance, plan)?;
    Ok(changes_in(verdict))
}

/// What a verdict counts. None where it is a refusal.
fn changes_in(verdict: Verdict) -> Option<Changes>
    ensures { result ≡ changes_in verdict }
{
    match verdict {
        Verdict::Best {
            covered,
            left,
            moved,
        } => Some(Changes {
            covered,
            moved,
            left,
        }),
        Verdict::Refused(_) => None,
    }
}
