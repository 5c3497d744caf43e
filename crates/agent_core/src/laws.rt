//! Laws over all runs of an agent.
ghost use Rattle.agent_core.specs.Laws.{GivenToOne, NeverTwice, NothingOlder, OnlyHeld, OnlyTaken};

/// Whatever an agent is told, in whatever order: no scrape is in two reports, and no round of a target either.
pub fn never_twice()
    ensures { NeverTwice }
{}

/// Whatever an agent is told: no two reports of one series are of one time. So a scrape is given to one target at most, also where targets share a
/// series.
pub fn given_to_one()
    ensures { GivenToOne }
{}

/// Whatever an agent is told: what it reports is later than what was written down when it started, by scrape and by round.
pub fn nothing_older()
    ensures { NothingOlder }
{}

/// Whatever an agent is told: each report is of a target of the list that it holds when it chooses the report, by the epoch and the number of
/// that list and as its collector, and of a round that was told of this epoch. The target has its series alone, or Prometheus said then that its
/// last scrape began at that time, and that of no other target about then.
pub fn only_what_was_held()
    ensures { OnlyHeld }
{}

/// Whatever an agent is told: each target that is served is one of the list that was taken last.
pub fn only_what_was_taken()
    ensures { OnlyTaken }
{}
