//! The journal of a service, and the epoch that it is of.
ghost use Rattle.std.specs.Prelude.{◌≡◌, None, IfOk, IsSome};
ghost use Rattle.kept_journal.specs.Keeping.{IsOfService, MeansKeptWhere};

use alloc_desk::{Closed, Front};
use durable_journal::Device;
use journal_files::NamedCollector;
use kept_journal::{DeskJournal, JournalFile, JournalName, Kept};
use std::alloc::{AllocError, Global};
use std::sync::{Arc, Wait};

/// The journal of a service, and the epoch in which the allocator's numbers mean what they mean.
#[derive(Drop)]
pub struct Journal<F> {
    /// The file that it is written to, where there is one.
    pub file: Option<JournalFile<F>>,
    /// It is another one after each renewal, and with each new journal.
    pub epoch: u64,
    /// The names that collectors have or had, as they were known when the last desk was opened or closed.
    pub names: Vec<NamedCollector>,
}

impl<F: Device + Drop> Journal<F> {
    /// The journal of a desk, where there is a file for it. The front is of the desk.
    pub fn of_desk<N: JournalName>(&mut self, front: Front<N>) -> Option<DeskJournal<F, N>>
        requires file { IsOfService F.tells F.contents N.opening self.old.file }
        requires means { MeansKeptWhere F.tells F.kept N.opening self.old.file N.keeps }
        ensures taken { self.new.file ≡ None }
        ensures stays { IsSome self.old.file → IsSome result }
    {
        match self.file.take() {
            Some(file) => Some(DeskJournal::new(file, front)),
            None => {
                drop(front);
                None
            }
        }
    }

    /// The desk is closed: the file of its journal, which leads to the state that it was closed with, is the service's again.
    pub fn end_desk<N: JournalName>(
        &mut self,
        journal: Option<DeskJournal<F, N>>,
        closed: &Closed<N>,
    )
        ensures file { IsOfService F.tells F.contents closed.now.state self.new.file }
        ensures stays { IsSome journal → IsSome self.new.file }
    {
        let file = match journal {
            Some(journal) => Some(journal.end(closed)),
            None => None,
        };
        drop(std::mem::replace(&mut self.file, file));
    }
}

/// What tells how much of a desk's journal is kept, where there is a file for it.
pub fn kept_of<F: Device, N: JournalName>(
    rt: &impl Wait,
    alloc: Global,
    journal: &Option<DeskJournal<F, N>>,
) -> Result<Option<Arc<Kept<N>>>, AllocError>
    ensures { IfOk result (λ kept. kept ≡ None → journal.now ≡ None) }
{
    let Some(journal) = journal else {
        return Ok(None);
    };
    let kept = Arc::new(alloc, Kept::new(alloc))?;
    if journal.file().is_broken() {
        kept.fail(rt);
    }
    Ok(Some(kept))
}
