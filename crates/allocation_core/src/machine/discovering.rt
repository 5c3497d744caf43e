//! Sources that list targets.
ghost use Rattle.std.specs.Prelude.{◌≡◌, IfOk, OnOk, OnErr};
ghost use Rattle.allocation_core.specs.Steps.{answer_of, listing_answer, state_after, unlisted};
ghost use Rattle.fleet_events.specs.declared.event.Event.TheVariants.{Discover};

use super::Core;
use fleet::{ListRefusal, Listing};
use fleet_events::{Answer, Refusal};
use label_sets::Target;
use lists::{List, Text};
use std::alloc::AllocError;

impl Core {
    /// A source of a job lists targets.
    pub(super) fn discover(
        &mut self,
        name: Text,
        source: u32,
        targets: List<Target>,
    ) -> Result<Answer, AllocError>
        ensures answer { IfOk result (λ a. a ≡ answer_of self.old (Discover name source targets)) }
        ensures state { OnOk result (self.new ≡ state_after self.old (Discover name source targets)) }
        ensures err { OnErr result (self.new ≡ self.old) }
    {
        let listing = self.fleet.list(name.as_str(), source, targets)?;
        Ok(answer_to_listing(listing))
    }
}

fn answer_to_listing(listing: Listing) -> Answer
    ensures { result ≡ listing_answer listing }
{
    match listing {
        Listing::Changed { added, removed } => Answer::Discovered { added, removed },
        Listing::Refused(refusal) => Answer::Not(unlisted(refusal)),
    }
}

fn unlisted(refusal: ListRefusal) -> Refusal
    ensures { result ≡ unlisted refusal }
{
    match refusal {
        ListRefusal::UnknownJob => Refusal::UnknownJob,
        ListRefusal::UnknownSource => Refusal::UnknownSource,
        ListRefusal::TooManyLive => Refusal::TooManyLive,
        ListRefusal::TooManyKnown => Refusal::TooManyKnown,
    }
}
