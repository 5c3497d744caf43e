//! What a service tells of its sources and of its last allocations.
use crate::counts::Counts;
use crate::process_figures::ProcessFigures;
use crate::round_books::RoundBooks;
use exposition::Durations;
use fleet_events::CollectorId;
use lists::Plain;
use service_pages::{AllocationNote, LoadNote, SourceNote};
use std::alloc::{AllocError, Global};

/// How many of the last allocations are told of.
pub(crate) const MOST_ALLOCATIONS: usize = 10;

/// What a service notes while it runs.
#[derive(Drop)]
pub struct Notes {
    pub(crate) counts: Counts,
    pub sources: Vec<SourceNote>,
    /// The last ones, the latest first.
    pub allocations: Vec<AllocationNote>,
    /// How long searches for an allocation took.
    pub(crate) searches: Durations,
    /// How long it took to write to the journal, and to have the device keep it.
    pub(crate) writes: Durations,
    /// What the machine said last of the process.
    pub(crate) process: ProcessFigures,
    /// When collectors asked for a list last, in seconds since 1970. 0 where they did not.
    pub asked: Vec<(CollectorId, u64)>,
    /// What the last search that made loads even told of them. Empty where there was none.
    pub loads: Vec<LoadNote>,
    /// What was booked in the last round that is over.
    pub(crate) books: RoundBooks,
}

impl Notes {
    pub(crate) fn new(alloc: Global) -> Notes {
        Notes {
            counts: Counts::new(),
            sources: Vec::new(alloc),
            allocations: Vec::new(alloc),
            searches: Durations::new(),
            writes: Durations::new(),
            process: ProcessFigures::unknown(),
            asked: Vec::new(alloc),
            loads: Vec::new(alloc),
            books: RoundBooks::none(alloc),
        }
    }

    /// A copy of what is noted, with these times.
    pub(crate) fn copy_with(
        &self,
        alloc: Global,
        asked: Vec<(CollectorId, u64)>,
    ) -> Result<Notes, AllocError> {
        let sources = match copied_sources(alloc, self.sources.as_slice()) {
            Ok(sources) => sources,
            Err(refused) => {
                drop(asked);
                return Err(refused);
            }
        };
        let allocations = match copied_allocations(alloc, self.allocations.as_slice()) {
            Ok(allocations) => allocations,
            Err(refused) => {
                drop((asked, sources));
                return Err(refused);
            }
        };
        let loads = match copied_loads(alloc, self.loads.as_slice()) {
            Ok(loads) => loads,
            Err(refused) => {
                drop((asked, sources, allocations));
                return Err(refused);
            }
        };
        match self.books.copy(alloc) {
            Ok(books) => Ok(Notes {
                counts: self.counts,
                sources,
                allocations,
                searches: self.searches,
                writes: self.writes,
                process: self.process,
                asked,
                loads,
                books,
            }),
            Err(refused) => {
                drop((asked, sources, allocations, loads));
                Err(refused)
            }
        }
    }

    /// A source was refreshed.
    pub(crate) fn note_refresh(&mut self, refresh: SourceNote) -> Result<(), AllocError> {
        for note in &mut self.sources {
            if note.number == refresh.number && note.job.same(&refresh.job) {
                add_refresh(note, refresh);
                return Ok(());
            }
        }
        self.sources.push(refresh)?;
        Ok(())
    }

    /// An allocation was published.
    pub(crate) fn note_allocation(&mut self, note: AllocationNote) -> Result<(), AllocError> {
        self.allocations.insert(0, note)?;
        self.allocations.truncate(MOST_ALLOCATIONS);
        Ok(())
    }
}

/// What a refresh told is added to what is known of its source.
fn add_refresh(note: &mut SourceNote, refresh: SourceNote) {
    note.refreshes = note.refreshes.saturating_add(refresh.refreshes);
    note.failures = note.failures.saturating_add(refresh.failures);
    note.succeeded = note.succeeded.max(refresh.succeeded);
    note.at = refresh.at;
    note.fault = refresh.fault;
    note.counts = refresh.counts.or(note.counts);
}

fn copied_sources(alloc: Global, notes: &[SourceNote]) -> Result<Vec<SourceNote>, AllocError> {
    let mut copies = Vec::with_capacity(alloc, notes.len())?;
    match push_sources(&mut copies, notes) {
        Ok(()) => Ok(copies),
        Err(refused) => {
            drop(copies);
            Err(refused)
        }
    }
}

fn push_sources(copies: &mut Vec<SourceNote>, notes: &[SourceNote]) -> Result<(), AllocError> {
    for note in notes {
        copies.push(note.copy()?)?;
    }
    Ok(())
}

fn copied_loads(alloc: Global, notes: &[LoadNote]) -> Result<Vec<LoadNote>, AllocError> {
    let mut copies = Vec::with_capacity(alloc, notes.len())?;
    for note in notes {
        copies.push(*note)?;
    }
    Ok(copies)
}

fn copied_allocations(
    alloc: Global,
    notes: &[AllocationNote],
) -> Result<Vec<AllocationNote>, AllocError> {
    let mut copies = Vec::with_capacity(alloc, notes.len())?;
    match push_allocations(&mut copies, notes) {
        Ok(()) => Ok(copies),
        Err(refused) => {
            drop(copies);
            Err(refused)
        }
    }
}

fn push_allocations(
    copies: &mut Vec<AllocationNote>,
    notes: &[AllocationNote],
) -> Result<(), AllocError> {
    for note in notes {
        copies.push(note.copy()?)?;
    }
    Ok(())
}
