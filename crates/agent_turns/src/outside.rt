//! What lies outside of an agent: the clock, the device of its state file, the allocator, its Prometheus and who serves that one its lists.
ghost use Rattle.agent_turns.specs.Acts.{Act, PostedFirst, Takes, Wrote};

use agent_core::{Agent, Lasts, Lists, Report, Said};

/// What the allocator said of an agent's lists.
#[derive(Drop)]
pub enum Heard {
    Lists(Lists),
    /// The collector holds nothing: it left.
    Gone,
    /// No collector has the agent's name.
    Unknown,
    /// It was not heard, or what it said is of no use.
    Nothing,
}

/// What came of reports that were posted.
#[derive(Clone, Copy, Debug, PartialEq, Eq)]
pub enum Posted {
    /// Each was answered.
    Answered,
    /// One was refused, since its list or its round is over.
    Over,
    /// One was not answered, or nothing can be kept: it may be booked or not.
    Unknown,
}

/// What lies outside of an agent. It says by a relation what its acts may come to. What takes it by `&self` is no act: it only asks, or tells what
/// is served.
pub trait Outside {
    /// From the first state this act may leave the second.
    ghost may_act: { Self → Act → Self → Type 0 };

    /// The time, in milliseconds.
    fn now(&self) -> u64;

    /// Has the allocator show the lists, and takes none.
    fn look(&self, at: u64) -> Heard;

    /// What Prometheus says of the last scrapes of the series that targets share which the agent holds. Of other series it may say nothing, and
    /// where nobody shares one it need not be asked.
    fn lasts(&self, agent: &Agent) -> Lasts;

    /// What Prometheus says of its scrapes.
    fn said(&self) -> Option<Said>;

    /// Whether the allocator is to be told again that the agent is there, who holds its current list: the allocator misses who takes none for
    /// long.
    fn is_missed(&self, agent: &Agent, at: u64) -> bool;

    /// Whether Prometheus scrapes nothing any more of what the agent holds and no longer serves.
    fn has_let_go(&self, agent: &Agent) -> bool;

    /// The allocator was heard at a time: from now on what the agent serves is served.
    fn serve(&self, agent: &Agent, at: u64);

    /// Writes the state file, and tells whether it is on the device.
    fn write(&mut self, text: &str) -> bool
        ensures { may_act self.old (Wrote text.now result) self.new };

    /// Posts these reports in their order, up to one that is refused, since its list or its round is over, or that is not answered.
    fn post(&mut self, reports: &[Report]) -> Posted
        ensures { PostedFirst may_act self.old self.new reports.now };

    /// Takes the lists.
    fn take(&mut self, at: u64) -> Heard
        ensures { may_act self.old Takes self.new };
}
