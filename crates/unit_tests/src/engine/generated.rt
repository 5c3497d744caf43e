//! Small instances that are generated, against a plain program.
use crate::engine::push_row;
use assign_engine::solve;
use lists::List;
use price_certificate::{Instance, InstanceError, Verdict, check};
use std::alloc::{AllocError, Global};
use std::test::Fail;

const BINS: u32 = 4;

/// How many ways there are for each bin to have none to three items.
const USES: usize = 256;

/// A generator of numbers, the same in each run.
#[derive(Drop)]
struct Numbers {
    state: u64,
}

impl Numbers {
    /// The next number, below 2^48.
    fn next(&mut self) -> u64 {
        self.state = self
            .state
            .wrapping_mul(6364136223846793005)
            .wrapping_add(1442695040888963407);
        self.state >> 16
    }
}

/// How many items an assignment covers, how many of them at bins that do not drain, and how many where they were.
type Levels = (usize, usize, usize);

/// An instance in four numbers: a bit for each pair, three for the bin where an item was, two for a limit, where 0 is none,
/// and one for whether a bin drains.
#[derive(Clone, Copy)]
struct Small {
    items: u32,
    reach: u64,
    before: u64,
    limits: u64,
    draining: u64,
}

impl Small {
    /// One in which no bin drains.
    fn new(numbers: &mut Numbers) -> Small {
        Small {
            items: (numbers.next() % 11) as u32,
            reach: numbers.next() & numbers.next(),
            before: numbers.next(),
            limits: numbers.next(),
            draining: 0,
        }
    }

    /// One in which any bin may drain.
    fn new_draining(numbers: &mut Numbers) -> Small {
        let mut small = Small::new(numbers);
        small.draining = numbers.next();
        small
    }

    fn may_use(&self, item: u32, bin: u32) -> bool {
        (self.reach >> (4 * (item % 12) + bin % 4)) % 2 == 1
    }

    /// The bin where an item was, or none where it is no bin.
    fn home(&self, item: u32) -> u32 {
        ((self.before >> (3 * (item % 12))) % 8) as u32
    }

    fn limit(&self, bin: u32) -> u32 {
        ((self.limits >> (2 * (bin % 4))) % 4) as u32
    }

    fn drains(&self, bin: u32) -> bool {
        (self.draining >> (bin % 4)) % 2 == 1
    }

    fn limits(&self, alloc: Global) -> Result<List<u32>, AllocError> {
        let mut limits = List::new(alloc);
        for bin in 0..BINS {
            limits.push(self.limit(bin))?;
        }
        Ok(limits)
    }

    fn draining(&self, alloc: Global) -> Result<List<u32>, AllocError> {
        let mut draining = List::new(alloc);
        for bin in 0..BINS {
            if self.drains(bin) {
                draining.push(bin)?;
            }
        }
        Ok(draining)
    }

    fn rows(&self, alloc: Global) -> Result<List<List<u32>>, AllocError> {
        let mut rows = List::new(alloc);
        for item in 0..self.items {
            push_row(&mut rows, self.row(alloc, item))?;
        }
        Ok(rows)
    }

    fn row(&self, alloc: Global, item: u32) -> Result<List<u32>, AllocError> {
        let mut row = List::new(alloc);
        for bin in 0..BINS {
            if self.may_use(item, bin) {
                row.push(bin)?;
            }
        }
        Ok(row)
    }

    fn before(&self, alloc: Global) -> Result<List<(u32, u32)>, AllocError> {
        let mut before = List::new(alloc);
        for item in 0..self.items {
            if self.home(item) < BINS {
                before.push((item, self.home(item)))?;
            }
        }
        Ok(before)
    }

    /// The instance of version 1, which knows of no draining bins.
    fn first(&self, alloc: Global) -> Result<Instance, InstanceError> {
        match (self.limits(alloc), self.rows(alloc), self.before(alloc)) {
            (Ok(limits), Ok(rows), Ok(before)) => Instance::new(alloc, limits, rows, before),
            _ => Err(InstanceError::Memory),
        }
    }

    /// The instance of version 2.
    fn second(&self, alloc: Global) -> Result<Instance, InstanceError> {
        match self.draining(alloc) {
            Ok(draining) => self.with_draining(alloc, draining),
            Err(_) => Err(InstanceError::Memory),
        }
    }

    fn with_draining(&self, alloc: Global, draining: List<u32>) -> Result<Instance, InstanceError> {
        match (self.limits(alloc), self.rows(alloc), self.before(alloc)) {
            (Ok(limits), Ok(rows), Ok(before)) => {
                Instance::new2(alloc, limits, draining, rows, before)
            }
            _ => Err(InstanceError::Memory),
        }
    }

    /// The levels of an assignment.
    fn levels(&self, pairs: &[(u32, u32)]) -> Levels {
        let steady = pairs.iter().filter(|pair| !self.drains(pair.1)).count();
        let kept = pairs
            .iter()
            .filter(|pair| self.home(pair.0) == pair.1)
            .count();
        (pairs.len(), steady, kept)
    }

    /// What the checker says of a best assignment with these levels.
    fn verdict(&self, alloc: Global, levels: Levels) -> Result<Verdict, AllocError> {
        let (covered, steady, kept) = levels;
        match self.before(alloc) {
            Ok(before) => Ok(Verdict::Best {
                covered: covered as u64,
                left: covered.saturating_sub(steady) as u64,
                moved: before.len().saturating_sub(kept) as u64,
            }),
            Err(error) => Err(error),
        }
    }

    /// The uses of the bins once a bin has one more item; none where it may have no more.
    fn one_more(&self, uses: usize, bin: u32) -> Option<usize> {
        let one = 1usize << (2 * (bin % 4));
        let used = (uses / one) % 4;
        match self.limit(bin) as usize {
            0 => Some(uses),
            limit if used < limit => uses.checked_add(one),
            _ => None,
        }
    }

    /// By the uses of the bins, the greatest levels once one more item has its choice.
    fn choose(
        &self,
        alloc: Global,
        item: u32,
        most: &[Option<Levels>],
    ) -> Result<Vec<Option<Levels>>, AllocError> {
        let mut after = Vec::from_slice(alloc, most)?;
        for (uses, reached) in most.iter().enumerate() {
            let Some((covered, steady, kept)) = *reached else {
                continue;
            };
            for bin in 0..BINS {
                if !self.may_use(item, bin) {
                    continue;
                }
                let levels = (
                    covered.saturating_add(1),
                    steady.saturating_add(usize::from(!self.drains(bin))),
                    kept.saturating_add(usize::from(self.home(item) == bin)),
                );
                if let Some(place) = self
                    .one_more(uses, bin)
                    .and_then(|uses| after.as_mut_slice().get_mut(uses))
                {
                    *place = (*place).max(Some(levels));
                }
            }
        }
        Ok(after)
    }

    /// The greatest levels of all assignments, the first level deciding.
    fn best(&self, alloc: Global) -> Result<Levels, AllocError> {
        let mut most = vec![in alloc; None; USES]?;
        if let Some(unused) = most.as_mut_slice().get_mut(0) {
            *unused = Some((0, 0, 0));
        }
        for item in 0..self.items {
            most = self.choose(alloc, item, most.as_slice())?;
        }
        let mut best = (0, 0, 0);
        for levels in most.as_slice() {
            best = best.max(levels.unwrap_or((0, 0, 0)));
        }
        Ok(best)
    }
}

/// Whether the plan for an instance and the verdict on it are those of the best of all assignments.
fn is_best(
    alloc: Global,
    small: &Small,
    instance: Result<Instance, InstanceError>,
) -> Result<bool, AllocError> {
    match instance {
        Ok(instance) => is_solved(alloc, small, &instance),
        Err(_) => Err(AllocError),
    }
}

fn is_solved(alloc: Global, small: &Small, instance: &Instance) -> Result<bool, AllocError> {
    let best = small.best(alloc)?;
    let verdict = small.verdict(alloc, best)?;
    match solve(alloc, instance) {
        Ok((plan, _)) => {
            let levels = small.levels(plan.pairs.as_slice());
            is_judged(check(alloc, instance, &plan), verdict, levels == best)
        }
        Err(error) => Err(error),
    }
}

fn is_judged(
    found: Result<Verdict, AllocError>,
    verdict: Verdict,
    is_level: bool,
) -> Result<bool, AllocError> {
    match found {
        Ok(found) => Ok(is_level && found == verdict),
        Err(error) => Err(error),
    }
}

#[test]
fn is_as_good_as_the_best_of_all_assignments(rt: HostRuntime) -> Result<(), Fail> {
    let mut numbers = Numbers { state: 2027 };
    for _ in 0..2000 {
        let small = Small::new(&mut numbers);
        assert!(rt; is_best(rt.alloc(), &small, small.first(rt.alloc()))?);
    }
    Ok(())
}

#[test]
fn leaves_draining_bins_like_the_best_of_all_assignments(rt: HostRuntime) -> Result<(), Fail> {
    let mut numbers = Numbers { state: 2028 };
    for _ in 0..2000 {
        let small = Small::new_draining(&mut numbers);
        assert!(rt; is_best(rt.alloc(), &small, small.second(rt.alloc()))?);
    }
    Ok(())
}
