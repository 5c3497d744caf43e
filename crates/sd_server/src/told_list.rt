//! A list as a collector was told it.
ghost use Rattle.std.specs.Prelude.{◌≡◌, None, IfSome, IsTrue, true};
ghost use Rattle.sd_routes.specs.declared.responding.Said.TheVariants as said;
ghost use Rattle.sd_server.specs.Says.{SaysHeld};

use crate::seen::Seen;
use alloc_desk::{DeskName, Front};
use entity_tags::TaggedText;
use lists::{Plain, Text};
use sd_routes::{ListHead, Said};
use std::alloc::{AllocError, Global};
use std::marker::Model;

/// A list as a collector was told it of a job under a name, while nothing was entered. The same is told again as long as the journal has no
/// more entries. Contracts see it with what had been seen of the journal.
#[derive(Drop)]
pub(crate) struct ToldList<N: DeskName> {
    place: usize,
    job: Text,
    name: Text,
    head: ListHead,
    groups: TaggedText,
    front: Front<N>,
}

impl<N: DeskName> Model for ToldList<N> {
    ghost use Rattle.std.specs.Prelude.{None, true};
    ghost use Rattle.sd_routes.specs.declared.responding.Said.TheVariants as said;
    ghost use Rattle.sd_server.specs.Says.{SaysHeld};
    ghost use Rattle.sd_server.specs.Spans.{at_once};
    ghost use Rattle.sd_server.specs.Telling.{Telling};

    ghost Value = { Telling };

    ghost view = { λ l. record { place = l.place; job = l.job; name = l.name; head = l.head; groups = l.groups; seen = l.front } };

    ghost invariant = { λ l. SaysHeld (at_once N.opening l.front) None l.place l.job l.name true (said.List l.head l.groups) };
}

impl<N: DeskName> ToldList<N> {
    /// What is told. None where it is no list, or something was entered since the request came.
    pub(crate) fn of(
        alloc: Global,
        seen: &Seen<N>,
        place: usize,
        job: &Text,
        name: &str,
        told: &Said,
    ) -> Result<Option<ToldList<N>>, AllocError>
        requires { SaysHeld seen.now None place job.now name.now true told.now }
    {
        match told {
            Said::List { head, groups } if seen.is_still() => {
                let job = job.copy()?;
                let name = Text::from_str(alloc, name)?;
                let groups = groups.again()?;
                let front = seen.now().again();
                Ok(Some(ToldList {
                    place,
                    job,
                    name,
                    head: head.told(),
                    groups,
                    front,
                }))
            }
            _ => Ok(None),
        }
    }

    /// The head as it was told.
    pub(crate) fn head(&self) -> ListHead
        ensures { result ≡ self.now.head }
    {
        self.head
    }

    /// How many bytes the text has.
    pub(crate) fn len(&self) -> usize {
        self.groups.as_slice().len()
    }

    /// The text, where the list is told again: of the same job under the same name, and where what was seen now is what had been seen then. None
    /// without memory, too.
    pub(crate) fn again(
        &self,
        seen: &Seen<N>,
        place: usize,
        job: &str,
        name: &str,
    ) -> Option<TaggedText>
        ensures { IfSome result (λ groups. SaysHeld seen.now None place job.now name.now true (said.List self.now.head groups)) }
    {
        if !self.is_of(place, job, name) || !self.is_of_now(seen.now()) {
            return None;
        }
        match self.groups.again() {
            Ok(groups) => Some(groups),
            Err(_) => None,
        }
    }

    fn is_of(&self, place: usize, job: &str, name: &str) -> bool
        ensures { IsTrue result → (self.now.place ≡ place) × (self.now.job ≡ job.now) × (self.now.name ≡ name.now) }
    {
        self.place == place && self.job.as_str() == job && self.name.as_str() == name
    }

    /// Whether the front has seen what had been seen then, and no more.
    fn is_of_now(&self, front: &Front<N>) -> bool
        ensures { IsTrue result → self.now.seen ≡ front.now }
    {
        self.front.len() == front.len() && front.covers(&self.front)
    }
}
