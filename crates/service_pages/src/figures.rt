//! What a desk shows of itself in numbers.
use lists::Text;

/// What a desk shows of itself in numbers, from one state.
#[derive(Drop)]
pub struct Figures {
    pub jobs: Vec<JobFigures>,
    /// In order of number.
    pub collectors: Vec<CollectorFigures>,
    /// The number of the current allocation, 0 before the first.
    pub allocation: u32,
    pub round: u32,
    /// The samples of all reports that are booked.
    pub samples: u128,
    /// How many entries the journal has.
    pub entries: usize,
    /// How many live targets stand in lists of collectors that left, and are held by others.
    pub waited_for_left: u64,
}

#[derive(Drop)]
pub struct JobFigures {
    pub name: Text,
    /// How many targets are live.
    pub live: u64,
    /// How many of them somebody holds in the current allocation.
    pub covered: u64,
    /// How many of these the list of the holder leaves out, since another list has them.
    pub handing_over: u64,
    /// How many of those that somebody holds are in the last list that he was given.
    pub taken: u64,
}

impl JobFigures {
    ghost use Rattle.std.specs.Prelude.{◌≡◌};
    ghost use Rattle.service_pages.specs.Counted.{uncovered};

    /// How many live targets nobody holds.
    pub(crate) fn uncovered(&self) -> u64
        ensures { result ≡ uncovered self.now }
    {
        self.live.saturating_sub(self.covered)
    }
}

#[derive(Drop)]
pub struct CollectorFigures {
    pub name: Text,
    /// Its number.
    pub id: u32,
    pub draining: bool,
    /// How many live targets it holds in the current allocation.
    pub held: u64,
    /// Its shares, job by job.
    pub shares: Vec<ShareFigures>,
    /// The number of the allocation that it took last, 0 where it took none.
    pub taken: u32,
    /// How many it may hold of all jobs together, where each job has a limit for it.
    pub room: Option<u64>,
    /// How many live targets stand in its lists, and are held by others.
    pub waited_for: u64,
}

impl CollectorFigures {
    ghost use Rattle.std.specs.Prelude.{◌≡◌};
    ghost use Rattle.service_pages.specs.Counted.{is_behind, is_waited_for};

    /// Whether its list is of an earlier allocation.
    pub(crate) fn is_behind(&self, allocation: u32) -> bool
        ensures { result ≡ is_behind allocation self.now }
    {
        self.taken < allocation
    }

    /// Whether its lists have targets that others hold.
    pub(crate) fn is_waited_for(&self) -> bool
        ensures { result ≡ is_waited_for self.now }
    {
        self.waited_for > 0
    }
}

/// A collector's share of a job.
#[derive(Clone, Copy)]
pub struct ShareFigures {
    /// How many live targets it has in the current allocation.
    pub held: u64,
    /// How many it may have, 0 where nothing limits it.
    pub limit: u32,
    /// Whether the collector has a limit of its own for the job.
    pub has_own_limit: bool,
}
