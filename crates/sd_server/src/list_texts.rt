//! The texts of the lists that collectors took, kept for the next time that they ask.
ghost use Rattle.std.specs.Prelude.{◌≡◌, IfOk};
ghost use Rattle.sd_server.specs.Listing.{IfGroups};
ghost use Rattle.sd_server.specs.Spans.{Span};

use crate::list_text::ListText;
use crate::told_list::ToldList;
use alloc_desk::{DeskName, Front};
use entity_tags::{KnownTags, TaggedText};
use fleet_events::{AllocationNumber, CollectorId, TargetId};
use indexmap::IndexMap;
use std::alloc::{AllocError, Global};
use std::sync::{Arc, Mutex, Wait};

/// The texts of the lists of one allocation, by collector and place of the job, and their entity tags. No two collectors hold a target, so they take no more
/// room than one text of all targets.
#[derive(Drop)]
pub struct ListTexts<N: DeskName> {
    kept: Mutex<Latest<N>>,
    tags: Arc<KnownTags>,
}

#[derive(Drop)]
struct Latest<N: DeskName> {
    allocation: AllocationNumber,
    texts: IndexMap<(CollectorId, usize), Arc<ListText<N>>>,
    /// The lists as they were told last.
    told: IndexMap<(CollectorId, usize), Arc<ToldList<N>>>,
}

impl<N: DeskName> Latest<N> {
    /// Whether what is of an allocation is to be kept. What is of an earlier one goes.
    fn is_of(&mut self, allocation: AllocationNumber) -> bool {
        if allocation > self.allocation {
            self.allocation = allocation;
            self.texts.clear();
            self.told.clear();
        }
        allocation == self.allocation
    }
}

impl<N: DeskName> ListTexts<N> {
    /// No texts.
    pub fn shared(alloc: Global) -> Result<Arc<ListTexts<N>>, AllocError> {
        let tags = Arc::new(alloc, KnownTags::new(alloc))?;
        let texts = ListTexts {
            kept: Mutex::new(Latest {
                allocation: 0,
                texts: IndexMap::new(alloc),
                told: IndexMap::new(alloc),
            }),
            tags,
        };
        Ok(Arc::new(alloc, texts)?)
    }

    /// The entity tags of the lists.
    pub(crate) fn tags(&self) -> Option<Arc<KnownTags>> {
        Arc::try_clone(&self.tags).ok()
    }

    /// The text of what a collector holds of a job, where it is kept, and of what the front has seen.
    pub(crate) fn text(
        &self,
        rt: &impl Wait,
        front: &Front<N>,
        collector: CollectorId,
        place: usize,
        held: &[TargetId],
    ) -> Result<Option<TaggedText>, AllocError>
        ensures { IfOk result (λ found. (span : Span) → span.opening ≡ N.opening → span.after ≡ front.now → IfGroups span place held.now found) }
    {
        match self.kept_text(rt, collector, place)? {
            Some(text) => text.text(front, place, held),
            None => Ok(None),
        }
    }

    /// What is kept is copied without the lock.
    fn kept_text(
        &self,
        rt: &impl Wait,
        collector: CollectorId,
        place: usize,
    ) -> Result<Option<Arc<ListText<N>>>, AllocError> {
        let kept = self.kept.lock(rt);
        match kept.texts.get(&(collector, place)) {
            Some(text) => Ok(Some(Arc::try_clone(text)?)),
            None => Ok(None),
        }
    }

    /// Keeps a text of an allocation, unless there are texts of a later one. Those of earlier ones go.
    pub(crate) fn keep(
        &self,
        rt: &impl Wait,
        allocation: AllocationNumber,
        collector: CollectorId,
        place: usize,
        text: Arc<ListText<N>>,
    ) -> Result<(), AllocError> {
        let mut kept = self.kept.lock(rt);
        if kept.is_of(allocation) {
            kept.texts
                .insert((collector, place), text)
                .map_err(AllocError::from)?;
        }
        Ok(())
    }

    /// The list of a job as a collector was told it last.
    pub(crate) fn told(
        &self,
        rt: &impl Wait,
        collector: CollectorId,
        place: usize,
    ) -> Option<Arc<ToldList<N>>> {
        let kept = self.kept.lock(rt);
        let told = kept.told.get(&(collector, place))?;
        Arc::try_clone(told).ok()
    }

    /// Keeps a list of an allocation as it was told, unless there are texts of a later one. Those of earlier ones go.
    pub(crate) fn keep_told(
        &self,
        rt: &impl Wait,
        allocation: AllocationNumber,
        collector: CollectorId,
        place: usize,
        told: Arc<ToldList<N>>,
    ) -> Result<(), AllocError> {
        let mut kept = self.kept.lock(rt);
        if kept.is_of(allocation) {
            kept.told
                .insert((collector, place), told)
                .map_err(AllocError::from)?;
        }
        Ok(())
    }
}
