//! What becomes of a list, of a collector that wants to join, and of one that is to drain or gets other limits.

/// What becomes of a list.
#[derive(Clone, Copy, PartialEq, Eq)]
pub enum Listing {
    /// So many targets became live, and so many are live no longer.
    Changed { added: u32, removed: u32 },
    Refused(ListRefusal),
}

/// Why a source does not list the targets.
#[derive(Clone, Copy, PartialEq, Eq)]
pub enum ListRefusal {
    UnknownJob,
    UnknownSource,
    TooManyLive,
    TooManyKnown,
}

/// What becomes of a collector that wants to join.
#[derive(Clone, Copy, Debug, PartialEq, Eq)]
pub enum Joining {
    /// It joined under this number.
    Joined(u32),
    Refused(JoinRefusal),
}

/// Why a collector does not join.
#[derive(Clone, Copy, Debug, PartialEq, Eq)]
pub enum JoinRefusal {
    /// A limit of its own is for no job.
    UnknownJob,
    /// A live collector of this number has the name.
    AlreadyJoined(u32),
    TooManyCollectors,
    IdsSpent,
}

/// What becomes of a collector that is to drain.
#[derive(Clone, Copy, Debug, PartialEq, Eq)]
pub enum Draining {
    /// It drains from now on.
    Drains,
    Refused(DrainRefusal),
}

/// Why a collector does not begin to drain.
#[derive(Clone, Copy, Debug, PartialEq, Eq)]
pub enum DrainRefusal {
    UnknownCollector,
    AlreadyDraining,
}

/// What becomes of a collector that gets other limits of its own.
#[derive(Clone, Copy, PartialEq, Eq)]
pub enum Limiting {
    /// It has these limits, and none besides.
    LimitsSet,
    Refused(LimitsRefusal),
}

/// Why a collector does not get other limits.
#[derive(Clone, Copy, PartialEq, Eq)]
pub enum LimitsRefusal {
    UnknownCollector,
    /// A limit is for no job.
    UnknownJob,
}
