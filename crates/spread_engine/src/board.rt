//! Which pair has which bin while shifts are chosen, and how many items each group has. Nothing depends on its being right: a shift
//! that may not be made is not made by `Witness`.
use crate::groups::Groups;
use crate::numbers::{NONE, count_of, decrease, increase, number_at, put, repeated};
use price_certificate::Instance;
use std::alloc::{AllocError, Global};

/// The bins of pairs, which shift. A pair is named by its place in the list that it began with.
#[derive(Drop)]
pub(crate) struct Board {
    /// The group of each bin, `NONE` where its items do not count.
    owners: Vec<u32>,
    /// How many more items each bin may have.
    rooms: Vec<u32>,
    /// How many items each group has.
    pub(crate) loads: Vec<u32>,
    /// The item and the bin of each place.
    pub(crate) items: Vec<u32>,
    pub(crate) seats: Vec<u32>,
    /// The first place of each bin, and the places after and before each place.
    firsts: Vec<u32>,
    nexts: Vec<u32>,
    lasts: Vec<u32>,
    /// The shifts that were made, each a place and its new bin.
    pub(crate) shifts: Vec<(u32, u32)>,
}

/// How many items each of so many groups has.
pub(crate) fn loads_of(
    alloc: Global,
    owners: &[u32],
    groups: usize,
    pairs: &[(u32, u32)],
) -> Result<Vec<u32>, AllocError> {
    let mut loads = repeated(alloc, 0, groups)?;
    for pair in pairs {
        increase(&mut loads, number_at(owners, pair.1));
    }
    Ok(loads)
}

fn empty_board(alloc: Global, instance: &Instance, groups: &Groups) -> Result<Board, AllocError> {
    let bins = instance.bins();
    let items = instance.items();
    Ok(Board {
        owners: Vec::from_slice(alloc, groups.owners.as_slice())?,
        rooms: repeated(alloc, 0, bins)?,
        loads: repeated(alloc, 0, groups.count())?,
        items: Vec::with_capacity(alloc, items)?,
        seats: Vec::with_capacity(alloc, items)?,
        firsts: repeated(alloc, NONE, bins)?,
        nexts: Vec::with_capacity(alloc, items)?,
        lasts: Vec::with_capacity(alloc, items)?,
        shifts: Vec::new(alloc),
    })
}

impl Board {
    /// These pairs of the instance.
    pub(crate) fn new(
        alloc: Global,
        instance: &Instance,
        groups: &Groups,
        pairs: &[(u32, u32)],
    ) -> Result<Board, AllocError> {
        let mut board = empty_board(alloc, instance, groups)?;
        for bin in 0..instance.bins() {
            put(&mut board.rooms, bin as u32, instance.capacity(bin) as u32);
        }
        for pair in pairs {
            board.seat(pair.0, pair.1)?;
        }
        Ok(board)
    }

    /// One place more.
    fn seat(&mut self, item: u32, bin: u32) -> Result<(), AllocError> {
        let place = u32::try_from(self.seats.len()).unwrap_or(NONE);
        self.items.push(item)?;
        self.seats.push(bin)?;
        self.nexts.push(NONE)?;
        self.lasts.push(NONE)?;
        self.join(place, bin);
        Ok(())
    }

    /// The place comes to a bin, before the others that are there.
    fn join(&mut self, place: u32, bin: u32) {
        let first = self.first(bin);
        put(&mut self.nexts, place, first);
        put(&mut self.lasts, place, NONE);
        put(&mut self.lasts, first, place);
        put(&mut self.firsts, bin, place);
        put(&mut self.seats, place, bin);
        decrease(&mut self.rooms, bin);
        increase(&mut self.loads, number_at(self.owners.as_slice(), bin));
    }

    /// The place goes from its bin.
    fn part(&mut self, place: u32) {
        let bin = self.bin_of(place);
        let next = self.next(place);
        let last = number_at(self.lasts.as_slice(), place);
        if last == NONE {
            put(&mut self.firsts, bin, next);
        } else {
            put(&mut self.nexts, last, next);
        }
        put(&mut self.lasts, next, last);
        increase(&mut self.rooms, bin);
        decrease(&mut self.loads, number_at(self.owners.as_slice(), bin));
    }

    /// The place goes from its bin to another one.
    pub(crate) fn shift(&mut self, place: u32, bin: u32) -> Result<(), AllocError> {
        self.part(place);
        self.join(place, bin);
        self.shifts.push((place, bin))?;
        Ok(())
    }

    pub(crate) fn item_of(&self, place: u32) -> usize {
        number_at(self.items.as_slice(), place) as usize
    }

    pub(crate) fn bin_of(&self, place: u32) -> u32 {
        number_at(self.seats.as_slice(), place)
    }

    /// The first place of a bin.
    pub(crate) fn first(&self, bin: u32) -> u32 {
        number_at(self.firsts.as_slice(), bin)
    }

    /// The place after a place in its bin.
    pub(crate) fn next(&self, place: u32) -> u32 {
        number_at(self.nexts.as_slice(), place)
    }

    pub(crate) fn owner(&self, bin: u32) -> u32 {
        number_at(self.owners.as_slice(), bin)
    }

    pub(crate) fn load(&self, group: u32) -> u32 {
        number_at(self.loads.as_slice(), group)
    }

    pub(crate) fn has_room(&self, bin: u32) -> bool {
        number_at(self.rooms.as_slice(), bin) > 0
    }

    /// The pairs of items and bins as they are now.
    pub(crate) fn pairs(&self, alloc: Global) -> Result<Vec<(u32, u32)>, AllocError> {
        let mut pairs = Vec::with_capacity(alloc, self.items.len())?;
        for place in 0..count_of(self.items.as_slice()) {
            let item = number_at(self.items.as_slice(), place);
            pairs.push((item, self.bin_of(place)))?;
        }
        Ok(pairs)
    }
}
