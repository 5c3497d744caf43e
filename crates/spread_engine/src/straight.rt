//! Straight shifts: each item once, from where it is to the bin of the group that has the fewest, or that has the most room.
use crate::board::Board;
use crate::numbers::{NONE, count_of, number_at};
use price_certificate::Instance;
use std::alloc::AllocError;

/// So many times each item is looked at, if the time before shifted some.
const MOST_PASSES: usize = 16;

impl Board {
    /// Shifts items to lighter groups, until no item has one of its own.
    pub(crate) fn shift_to_lighter(&mut self, instance: &Instance) -> Result<(), AllocError> {
        for _ in 0..MOST_PASSES {
            let before = self.shifts.len();
            self.pass_to_lighter(instance)?;
            if self.shifts.len() == before {
                break;
            }
        }
        Ok(())
    }

    fn pass_to_lighter(&mut self, instance: &Instance) -> Result<(), AllocError> {
        for place in 0..count_of(self.seats.as_slice()) {
            if let Some(bin) = self.lightest(instance, place) {
                self.shift(place, bin)?;
            }
        }
        Ok(())
    }

    /// The bin for the item of a place whose group has the fewest items, at least two fewer than the one that it is at.
    fn lightest(&self, instance: &Instance, place: u32) -> Option<u32> {
        let from = self.owner(self.bin_of(place));
        if from == NONE {
            return None;
        }
        let mut fewest = self.load(from).saturating_sub(1);
        let mut best = None;
        for bin in instance.row(self.item_of(place)) {
            let owner = self.owner(*bin);
            if owner != NONE && self.load(owner) < fewest && self.has_room(*bin) {
                fewest = self.load(owner);
                best = Some(*bin);
            }
        }
        best
    }

    /// Shifts items off the groups that have more than they may.
    pub(crate) fn shift_into_bounds(
        &mut self,
        instance: &Instance,
        bounds: &[u32],
    ) -> Result<(), AllocError> {
        for place in 0..count_of(self.seats.as_slice()) {
            if let Some(bin) = self.roomiest(instance, bounds, place) {
                self.shift(place, bin)?;
            }
        }
        Ok(())
    }

    /// How many items more a group may have.
    fn spare(&self, bounds: &[u32], group: u32) -> u32 {
        number_at(bounds, group).saturating_sub(self.load(group))
    }

    /// The bin for the item of a place whose group may have the most items more, where the one that it is at has too many.
    fn roomiest(&self, instance: &Instance, bounds: &[u32], place: u32) -> Option<u32> {
        let from = self.owner(self.bin_of(place));
        if from == NONE || self.load(from) <= number_at(bounds, from) {
            return None;
        }
        let mut most = 0;
        let mut best = None;
        for bin in instance.row(self.item_of(place)) {
            let owner = self.owner(*bin);
            if owner != NONE && self.spare(bounds, owner) > most && self.has_room(*bin) {
                most = self.spare(bounds, owner);
                best = Some(*bin);
            }
        }
        best
    }
}
