//! The text of what a collector holds of a job.
ghost use Rattle.std.specs.Prelude.{◌≡◌, IfOk};
ghost use mathlib.Core.List.{IsPrefix};
ghost use Rattle.alloc_desk.specs.History.{history_of};
ghost use Rattle.sd_server.specs.Listing.{AreGroups, IfGroups};
ghost use Rattle.sd_server.specs.Spans.{Span};

use alloc_desk::{DeskName, Front};
use entity_tags::TaggedText;
use fleet_events::TargetId;
use lists::{List, Plain, all_same, copies};
use std::alloc::{AllocError, Global};
use std::marker::Model;

/// The text of what a collector holds of a job. Contracts see it beside the place of the job and the targets that it was made of, and
/// what had been seen of the journal then.
#[derive(Drop)]
pub(crate) struct ListText<N: DeskName> {
    place: usize,
    held: List<TargetId>,
    text: TaggedText,
    front: Front<N>,
}

impl<N: DeskName> Model for ListText<N> {
    ghost use Rattle.alloc_desk.specs.History.{history_of};
    ghost use Rattle.sd_server.specs.Listing.{AreGroups, Listing};

    ghost Value = { Listing };

    ghost view = { λ l. record { place = l.place; held = l.held; text = l.text; seen = l.front } };

    ghost invariant = { λ l. AreGroups l.place l.held l.text (history_of N.opening l.front) };
}

impl<N: DeskName> ListText<N> {
    /// A text that was made of these targets.
    pub(crate) fn new(
        alloc: Global,
        front: &Front<N>,
        place: usize,
        held: &[TargetId],
        text: TaggedText,
    ) -> Result<ListText<N>, AllocError>
        requires { AreGroups place held.now text (history_of N.opening front.now) }
    {
        let held = List::from_vec(copies(alloc, held)?);
        Ok(ListText {
            place,
            held,
            text,
            front: front.again(),
        })
    }

    /// The text, where it is that of these targets, and of what this front has seen too.
    pub(crate) fn text(
        &self,
        front: &Front<N>,
        place: usize,
        held: &[TargetId],
    ) -> Result<Option<TaggedText>, AllocError>
        ensures { IfOk result (λ found. (span : Span) → span.opening ≡ N.opening → span.after ≡ front.now → IfGroups span place held.now found) }
    {
        if self.place != place || !all_same(self.held.as_slice(), held) {
            return Ok(None);
        }
        if !front.covers(&self.front) {
            return Ok(None);
        }
        Ok(Some(self.text.again()?))
    }
}
