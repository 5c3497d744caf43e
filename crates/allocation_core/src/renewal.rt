//! What a renewal comes to.
use crate::machine::Core;
use fleet::Fleet;
use handover::Holders;
use scrape_books::Books;
use served_lists::ServedLists;
use thiserror::Error;

/// A core that is renewed, and what it forgot.
#[derive(Drop)]
pub struct Renewed {
    pub core: Core,
    pub forgotten: Forgotten,
}

/// What a renewal forgets: the fleet as it was, its allocations, lists and books. To let go of it takes the longer the larger the fleet was,
/// so whoever renews may have another thread do that.
#[derive(Drop)]
pub struct Forgotten {
    pub(crate) fleet: Fleet,
    pub(crate) holders: Holders,
    pub(crate) served: ServedLists,
    pub(crate) books: Books,
}

/// Why an allocator is not renewed.
#[derive(Clone, Copy, Debug, PartialEq, Eq, Drop, Error)]
pub enum RenewalError {
    /// A name is repeated or empty, or there are more than 1,024 jobs.
    #[error("a job's name is repeated or empty, or there are more than 1,024 jobs")]
    BadJobs,
    /// Jobs times live collectors are more than 16,384.
    #[error("jobs times live collectors are more than 16,384")]
    TooManyBins,
    /// The last round is open.
    #[error("the last round is open")]
    RoundsSpent,
    #[error("no memory")]
    Memory,
}

/// A core that is not renewed, as it was.
#[derive(Drop)]
pub struct NotRenewed {
    pub core: Core,
    pub why: RenewalError,
}
