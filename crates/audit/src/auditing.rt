//! Audits from the first journal to the last.
ghost use Rattle.std.specs.Prelude.{◌≡◌, ◌++◌, IfOk, Ok, OnOk, OnErr, is_ok, true};
ghost use Rattle.replay_lines.specs.Lines.{AddsFront};
ghost use Rattle.audit.specs.Audits.{checked_text, progress_past, report_of, report_on};
ghost use Rattle.audit.specs.Checks.{file_checked};
ghost use Rattle.audit.specs.Renewals.{AreRenewals, AreRenewalsFrom, FileBeginsWithRenewal};

use crate::checking::file_checked;
use crate::lines::{write_fault, write_journal, write_whole};
use allocation_core::Core;
use lists::List;
use replay_lines::Resumption;
use std::alloc::{AllocError, Global};

/// What an audit found.
#[derive(Clone, Copy, PartialEq, Eq)]
pub enum Audited {
    /// Each journal begins with the renewal of the state in which the one before it ended.
    Consistent,
    Inconsistent,
}

/// How far an audit is.
#[derive(Drop)]
pub(crate) struct Progress {
    /// The state in which the last journal ended.
    pub(crate) before: Option<Core>,
    /// The sums over the journals so far.
    pub(crate) events: u64,
    pub(crate) total: u128,
}

impl Progress {
    fn add(&mut self, end: Resumption)
        ensures { self.new ≡ progress_past self.old (Ok end) }
    {
        self.events = self.events.saturating_add(end.events);
        self.total = self.total.saturating_add(end.core.total());
        drop(self.before.replace(end.core));
    }
}

/// Audits the files of journals, in order, and appends what is written to the text: a line for each, and then a line of the whole, or the
/// first fault. Without memory the text has the lines so far. Where it is consistent, the state that each journal but the first opens
/// is the renewal of that in which the one before it ended, under the jobs of its own first line.
#[tactic(auto, unfolding(crate::specs::Audits::report_of))]
pub fn audit(
    alloc: Global,
    journals: &[List<u8>],
    text: &mut Vec<u8>,
) -> Result<Audited, AllocError>
    ensures text { OnOk result (text.new.items ≡ text.old.items ++ (report_of journals.now).text) }
    ensures audited { IfOk result (λ a. a ≡ (report_of journals.now).audited) }
    ensures memory { OnErr result (AddsFront (report_of journals.now).text text.old.items text.new.items) }
    ensures renewals { IfOk result (λ a. a ≡ Audited.Consistent → AreRenewals journals.now) }
{
    let mut progress = Progress {
        before: None,
        events: 0,
        total: 0,
    };
    let audited = audit_all(alloc, &mut progress, journals, text);
    drop(progress);
    audited
}

fn audit_all(
    alloc: Global,
    progress: &mut Progress,
    journals: &[List<u8>],
    text: &mut Vec<u8>,
) -> Result<Audited, AllocError>
    ensures text { OnOk result (text.new.items ≡ text.old.items ++ (report_on 0 progress.old journals.now).text) }
    ensures audited { IfOk result (λ a. a ≡ (report_on 0 progress.old journals.now).audited) }
    ensures memory { OnErr result (AddsFront (report_on 0 progress.old journals.now).text text.old.items text.new.items) }
    ensures renewals { IfOk result (λ a. a ≡ Audited.Consistent → AreRenewalsFrom progress.old.before journals.now) }
{
    for i in 0..journals.len() {
        if !audit_next(alloc, progress, i + 1, journals[i].as_slice(), text)? {
            return Ok(Audited::Inconsistent);
        }
    }
    let events = progress.events;
    let total = progress.total;
    write_whole(alloc, journals.len(), events, total, text)?;
    Ok(Audited::Consistent)
}

/// Writes the line of the next journal, or its first fault, and says whether it has none.
fn audit_next(
    alloc: Global,
    progress: &mut Progress,
    file: usize,
    journal: &[u8],
    text: &mut Vec<u8>,
) -> Result<bool, AllocError>
    ensures text { OnOk result (text.new.items ≡ text.old.items ++ checked_text file (file_checked progress.old.before journal.now)) }
    ensures good { IfOk result (λ b. b ≡ is_ok (file_checked progress.old.before journal.now)) }
    ensures next { OnOk result (progress.new ≡ progress_past progress.old (file_checked progress.old.before journal.now)) }
    ensures memory { OnErr result (text.new.items ≡ text.old.items) }
    ensures renewal { IfOk result (λ b. b ≡ true → FileBeginsWithRenewal progress.old.before journal.now) }
{
    match file_checked(alloc, progress.before.take(), journal)? {
        Ok(end) => match write_journal(alloc, file, &end, text) {
            Ok(()) => {
                progress.add(end);
                Ok(true)
            }
            Err(error) => {
                drop(end);
                Err(error)
            }
        },
        Err(fault) => {
            write_fault(alloc, file, fault, text)?;
            Ok(false)
        }
    }
}
