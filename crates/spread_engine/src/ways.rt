//! Ways over several groups, from those that have more items than they may to those that have fewer: an item of the one goes to a second,
//! an item of the second to a third. They are found many at a time: levels first, by breadth, and then ways along the levels, by depth.
use crate::board::Board;
use crate::groups::Groups;
use crate::numbers::{NONE, count_of, increase, is_marked, mark, number_at, put, repeated};
use price_certificate::Instance;
use std::alloc::{AllocError, Global};

/// The most pairs and tables that searches look at together. Past that the shifts stop, less even than they could be.
const MOST_LOOKS: u64 = 1 << 32;

/// What a search knows. A bin gives an item away that goes to a bin of the next level.
#[derive(Drop)]
pub(crate) struct Search {
    /// The first bin that may be one of each group, and the one after the last.
    rows: Vec<(u32, u32)>,
    /// The groups that are left alone.
    pub(crate) closed: Vec<bool>,
    /// The level of each bin that is to give an item away, and of each group of which any bin may.
    levels: Vec<u32>,
    pub(crate) opened: Vec<u32>,
    /// Which bins were looked at as one to go to.
    seen: Vec<bool>,
    /// The bins that are to give an item away, in order of levels.
    queue: Vec<u32>,
    /// Where each bin, each place and each group goes on to be looked at: at a place, at one of its item's bins, at a bin.
    turns: Vec<u32>,
    arcs: Vec<u32>,
    doors: Vec<u32>,
    /// The bins of the way that is looked for.
    stack: Vec<u32>,
    looks: u64,
}

/// Where a way goes on from a bin.
enum Step {
    /// To another bin, that gives one of its own away.
    Bin(u32),
    /// To its end.
    End,
    /// Nowhere along this pair.
    Next,
}

fn rows_of(alloc: Global, groups: &Groups) -> Result<Vec<(u32, u32)>, AllocError> {
    let mut rows = Vec::with_capacity(alloc, groups.count())?;
    for group in 0..groups.count() {
        rows.push(groups.row(u32::try_from(group).unwrap_or(NONE)))?;
    }
    Ok(rows)
}

impl Search {
    pub(crate) fn new(
        alloc: Global,
        instance: &Instance,
        groups: &Groups,
        board: &Board,
    ) -> Result<Search, AllocError> {
        let bins = instance.bins();
        let places = board.seats.len();
        Ok(Search {
            rows: rows_of(alloc, groups)?,
            closed: vec![in alloc; false; groups.count()]?,
            levels: repeated(alloc, NONE, bins)?,
            opened: repeated(alloc, NONE, groups.count())?,
            seen: vec![in alloc; false; bins]?,
            queue: Vec::with_capacity(alloc, bins)?,
            turns: repeated(alloc, NONE, bins)?,
            arcs: repeated(alloc, 0, places)?,
            doors: repeated(alloc, 0, groups.count())?,
            stack: Vec::with_capacity(alloc, bins)?,
            looks: 0,
        })
    }

    /// The first bin that may be one of a group, and the one after the last.
    fn row(&self, group: u32) -> (u32, u32) {
        match self.rows.get(group as usize) {
            Some(row) => *row,
            None => (0, 0),
        }
    }

    fn look(&mut self, many: usize) {
        self.looks = self.looks.saturating_add(many as u64);
    }

    /// Whether it has looked for too long.
    pub(crate) fn is_over(&self) -> bool {
        self.looks > MOST_LOOKS
    }

    /// Nothing is found.
    fn begin(&mut self, board: &Board) {
        self.levels.fill(NONE);
        self.opened.fill(NONE);
        self.seen.fill(false);
        self.arcs.fill(0);
        self.queue.clear();
        for bin in 0..count_of(self.turns.as_slice()) {
            put(&mut self.turns, bin, board.first(bin));
        }
        for group in 0..count_of(self.doors.as_slice()) {
            let (first, _) = self.row(group);
            put(&mut self.doors, group, first);
        }
        let tables = self.turns.len().saturating_add(self.arcs.len());
        self.look(tables);
    }

    /// A bin is to give an item away.
    fn open_bin(&mut self, bin: u32, level: u32) -> Result<(), AllocError> {
        if number_at(self.levels.as_slice(), bin) == NONE {
            put(&mut self.levels, bin, level);
            self.queue.push(bin)?;
        }
        Ok(())
    }

    /// Some bin of a group is to give an item away.
    fn open(&mut self, board: &Board, group: u32, level: u32) -> Result<(), AllocError> {
        if number_at(self.opened.as_slice(), group) != NONE {
            return Ok(());
        }
        put(&mut self.opened, group, level);
        let (first, end) = self.row(group);
        for bin in first..end {
            if board.owner(bin) == group {
                self.open_bin(bin, level)?;
            }
        }
        Ok(())
    }

    /// Opens the groups that have more than they may, and says whether there is one.
    fn open_full(&mut self, board: &Board, bounds: &[u32]) -> Result<bool, AllocError> {
        for group in 0..count_of(self.opened.as_slice()) {
            if self.has_too_many(board, bounds, group) {
                self.open(board, group, 0)?;
            }
        }
        Ok(!self.queue.is_empty())
    }

    fn has_too_many(&self, board: &Board, bounds: &[u32], group: u32) -> bool {
        !is_marked(self.closed.as_slice(), group) && board.load(group) > number_at(bounds, group)
    }

    /// Whether items may go to bins of a group at all.
    fn is_of_use(&self, group: u32) -> bool {
        group != NONE && !is_marked(self.closed.as_slice(), group)
    }

    /// Looks at the bins where an item could go, and says whether one is the end of a way.
    fn look_at(
        &mut self,
        board: &Board,
        bounds: &[u32],
        row: &[u32],
        level: u32,
    ) -> Result<bool, AllocError> {
        let mut ends = false;
        for bin in row {
            if !is_marked(self.seen.as_slice(), *bin) {
                mark(&mut self.seen, *bin);
                if self.look_at_bin(board, bounds, *bin, level)? {
                    ends = true;
                }
            }
        }
        self.look(row.len());
        Ok(ends)
    }

    fn look_at_bin(
        &mut self,
        board: &Board,
        bounds: &[u32],
        bin: u32,
        level: u32,
    ) -> Result<bool, AllocError> {
        let owner = board.owner(bin);
        if !self.is_of_use(owner) {
            return Ok(false);
        }
        if !board.has_room(bin) {
            self.open_bin(bin, level)?;
        } else if board.load(owner) < number_at(bounds, owner) {
            return Ok(true);
        } else {
            self.open(board, owner, level)?;
        }
        Ok(false)
    }

    /// Looks from each item of a bin.
    fn look_from(
        &mut self,
        instance: &Instance,
        board: &Board,
        bounds: &[u32],
        bin: u32,
        level: u32,
    ) -> Result<bool, AllocError> {
        let mut ends = false;
        let mut place = board.first(bin);
        for _ in 0..instance.items() {
            if place == NONE {
                break;
            }
            let row = instance.row(board.item_of(place));
            if self.look_at(board, bounds, row, level)? {
                ends = true;
            }
            place = board.next(place);
        }
        Ok(ends)
    }

    /// Finds the levels, and says whether a way has an end.
    fn find_levels(
        &mut self,
        instance: &Instance,
        board: &Board,
        bounds: &[u32],
    ) -> Result<bool, AllocError> {
        let mut end = NONE;
        for index in 0..instance.bins() {
            if index >= self.queue.len() {
                break;
            }
            let bin = self.queue[index];
            let level = number_at(self.levels.as_slice(), bin);
            if level >= end {
                break;
            }
            let next = level.saturating_add(1);
            if self.look_from(instance, board, bounds, bin, next)? {
                end = next;
            }
        }
        Ok(end != NONE)
    }

    /// Whether a bin of this level has items still that were not looked at.
    fn is_open(&self, bin: u32, level: u32) -> bool {
        number_at(self.levels.as_slice(), bin) == level
            && number_at(self.turns.as_slice(), bin) != NONE
    }

    /// The bin of a group of this level that gives the next item away.
    fn door(&mut self, board: &Board, group: u32, level: u32) -> Option<u32> {
        let (first, end) = self.row(group);
        for _ in first..end {
            let bin = number_at(self.doors.as_slice(), group);
            if bin >= end {
                break;
            }
            if board.owner(bin) == group && self.is_open(bin, level) {
                return Some(bin);
            }
            increase(&mut self.doors, group);
        }
        None
    }

    /// Where a way goes on if an item goes to a bin, from one of this level.
    fn step_to(&mut self, board: &Board, bounds: &[u32], bin: u32, level: u32) -> Step {
        let owner = board.owner(bin);
        if !self.is_of_use(owner) {
            return Step::Next;
        }
        let next = level.saturating_add(1);
        if !board.has_room(bin) {
            if self.is_open(bin, next) {
                return Step::Bin(bin);
            }
            return Step::Next;
        }
        if board.load(owner) < number_at(bounds, owner) {
            return Step::End;
        }
        if number_at(self.opened.as_slice(), owner) != next {
            return Step::Next;
        }
        match self.door(board, owner, next) {
            Some(door) => Step::Bin(door),
            None => Step::Next,
        }
    }

    /// The bin to which the item whose turn it is at a bin could go next.
    fn target(&self, instance: &Instance, board: &Board, bin: u32) -> u32 {
        let place = number_at(self.turns.as_slice(), bin);
        let arc = number_at(self.arcs.as_slice(), place);
        number_at(instance.row(board.item_of(place)), arc)
    }

    /// The turn goes to the next item of a bin.
    fn pass_turn(&mut self, board: &Board, bin: u32) {
        let place = number_at(self.turns.as_slice(), bin);
        put(&mut self.turns, bin, board.next(place));
    }

    /// One step of a way from its last bin, and whether it is at its end.
    fn step(
        &mut self,
        instance: &Instance,
        board: &Board,
        bounds: &[u32],
        bin: u32,
    ) -> Result<bool, AllocError> {
        let place = number_at(self.turns.as_slice(), bin);
        if place == NONE {
            let _ = self.stack.pop();
            return Ok(false);
        }
        let target = self.target(instance, board, bin);
        if target == NONE {
            self.pass_turn(board, bin);
            return Ok(false);
        }
        let level = number_at(self.levels.as_slice(), bin);
        match self.step_to(board, bounds, target, level) {
            Step::Bin(next) => self.stack.push(next)?,
            Step::End => return Ok(true),
            Step::Next => increase(&mut self.arcs, place),
        }
        Ok(false)
    }

    /// Finds a way from a group, depth first along the levels, and says whether there is one. The way stands on the stack.
    fn find_way(
        &mut self,
        instance: &Instance,
        board: &Board,
        bounds: &[u32],
        group: u32,
    ) -> Result<bool, AllocError> {
        self.stack.clear();
        for _ in 0..MOST_LOOKS {
            let Some(bin) = self.last_bin(board, group) else {
                return Ok(false);
            };
            if self.is_over() {
                return Ok(false);
            }
            self.look(1);
            if self.stack.is_empty() {
                self.stack.push(bin)?;
            }
            if self.step(instance, board, bounds, bin)? {
                return Ok(true);
            }
        }
        Ok(false)
    }

    /// The last bin of the way, or one of the group where it begins.
    fn last_bin(&mut self, board: &Board, group: u32) -> Option<u32> {
        match self.stack.last().copied() {
            Some(bin) => Some(bin),
            None => self.door(board, group, 0),
        }
    }

    /// Shifts along the way on the stack, from its end on.
    fn follow(&mut self, instance: &Instance, board: &mut Board) -> Result<(), AllocError> {
        for _ in 0..self.stack.len() {
            let Some(bin) = self.stack.pop() else {
                break;
            };
            let place = number_at(self.turns.as_slice(), bin);
            let target = self.target(instance, board, bin);
            self.pass_turn(board, bin);
            board.shift(place, target)?;
        }
        Ok(())
    }

    /// Shifts along ways from a group until it has no more items than it may, or there is no way.
    fn lower(
        &mut self,
        instance: &Instance,
        board: &mut Board,
        bounds: &[u32],
        group: u32,
    ) -> Result<(), AllocError> {
        for _ in 0..instance.items() {
            if !self.has_too_many(board, bounds, group)
                || !self.find_way(instance, board, bounds, group)?
            {
                break;
            }
            self.follow(instance, board)?;
        }
        Ok(())
    }

    /// Shifts along ways until no group has more items than it may, or none of those that do can be lowered; the groups that the
    /// last search came to are opened then. Says whether a group still has too many.
    pub(crate) fn lower_all(
        &mut self,
        instance: &Instance,
        board: &mut Board,
        bounds: &[u32],
    ) -> Result<bool, AllocError> {
        for _ in 0..MOST_LOOKS {
            self.begin(board);
            if !self.open_full(board, bounds)? {
                return Ok(false);
            }
            if self.is_over() || !self.find_levels(instance, board, bounds)? {
                break;
            }
            for group in 0..count_of(self.opened.as_slice()) {
                if self.has_too_many(board, bounds, group) {
                    self.lower(instance, board, bounds, group)?;
                }
            }
        }
        Ok(true)
    }
}
