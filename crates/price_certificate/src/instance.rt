//! Instances: what is asked of a plan.
ghost use Rattle.std.specs.Prelude.{◌≡◌, ◌↔◌, ◌<◌, ◌≤◌, IsTrue, List, [], Some, IfOk, slice_index, count_by, is_some, if◌then◌else◌};
ghost use Rattle.price_certificate.specs.Problem.{Problem, IsProblem, IsShaped, IsProblemOf, items_of, bins_of, drains, row_of, before_of, before_count, capacity_by, capacity_of, cover_worth, steady_worth, was_in, weight_of, bin_worth, top_weight};
ghost use Rattle.price_certificate.specs.Rows.{rows_of};
ghost use Rattle.price_certificate.specs.declared.version.Version.TheVariants.{One, Two};

mod derived;

use crate::rows::{Rows, one_each, row, same_rows};
use crate::shape::{InstanceError, MOST_BINS, MOST_ITEMS, has_reach, is_row, marks, places};
use crate::version::Version;
use lists::{List, Plain};
use std::alloc::{AllocError, Global};
use std::marker::Model;

/// Items, bins with limits, some of which drain, the bins that each item may use, and the bin where each item was.
#[derive(Debug, Drop)]
pub struct Instance {
    version: Version,
    limits: List<u32>,
    draining: List<bool>,
    rows: Rows,
    before: List<Option<u32>>,
}

impl Model for Instance {
    ghost use Rattle.price_certificate.specs.Problem.{Problem, IsProblem};
    ghost use Rattle.price_certificate.specs.Rows.{rows_of};

    ghost Value = { Problem };

    ghost view = { λ i. record { version = i.version; limits = i.limits; draining = i.draining; rows = rows_of i.rows; before = i.before } };

    ghost invariant = { λ i. IsProblem (record { version = i.version; limits = i.limits; draining = i.draining; rows = rows_of i.rows; before = i.before }) };
}

impl Instance {
    /// The instance of version 1 with these limits of bins, where 0 is no limit, these rows, which have for each item the
    /// bins that it may use in ascending order, and these pairs of the preceding assignment, in any order. There may be
    /// 16,384 items, 16,384 bins and 4,194,304 allowed pairs. A pair of the preceding assignment needs no allowed pair.
    pub fn new(
        alloc: Global,
        limits: List<u32>,
        rows: List<List<u32>>,
        before: List<(u32, u32)>,
    ) -> Result<Instance, InstanceError>
        ensures ok { IfOk result (λ i. IsShaped limits [] rows before × IsProblemOf i One limits [] rows before) }
        ensures shape { result ≡ Err InstanceError.Shape → ¬ IsShaped limits [] rows before }
    {
        Instance::of_lists(alloc, Version::One, limits, &[], rows, before)
    }

    /// The instance of version 2 with these limits of bins, these bins that drain, in ascending order, and rows and pairs
    /// as above.
    pub fn new2(
        alloc: Global,
        limits: List<u32>,
        draining: List<u32>,
        rows: List<List<u32>>,
        before: List<(u32, u32)>,
    ) -> Result<Instance, InstanceError>
        ensures ok { IfOk result (λ i. IsShaped limits draining rows before × IsProblemOf i Two limits draining rows before) }
        ensures shape { result ≡ Err InstanceError.Shape → ¬ IsShaped limits draining rows before }
    {
        Instance::of_lists(
            alloc,
            Version::Two,
            limits,
            draining.as_slice(),
            rows,
            before,
        )
    }

    /// The instance of version 2 whose items may share their rows.
    pub fn new_shared(
        alloc: Global,
        limits: List<u32>,
        draining: List<u32>,
        rows: Rows,
        before: List<(u32, u32)>,
    ) -> Result<Instance, InstanceError>
        ensures ok { IfOk result (λ i. IsShaped limits draining (rows_of rows) before × IsProblemOf i Two limits draining (rows_of rows) before) }
        ensures shape { result ≡ Err InstanceError.Shape → ¬ IsShaped limits draining (rows_of rows) before }
    {
        Instance::of_version(
            alloc,
            Version::Two,
            limits,
            draining.as_slice(),
            rows,
            before,
        )
    }

    /// The instance of a version where each item has a row of its own.
    fn of_lists(
        alloc: Global,
        version: Version,
        limits: List<u32>,
        draining: &[u32],
        rows: List<List<u32>>,
        before: List<(u32, u32)>,
    ) -> Result<Instance, InstanceError>
        requires { version ≡ One → draining.now ≡ [] }
        ensures ok { IfOk result (λ i. IsShaped limits draining.now rows before × IsProblemOf i version limits draining.now rows before) }
        ensures shape { result ≡ Err InstanceError.Shape → ¬ IsShaped limits draining.now rows before }
    {
        match one_each(alloc, rows) {
            Ok(rows) => Instance::of_version(alloc, version, limits, draining, rows, before),
            Err(_) => {
                drop((limits, before));
                Err(InstanceError::Memory)
            }
        }
    }

    /// The instance of a version.
    pub(crate) fn of_version(
        alloc: Global,
        version: Version,
        limits: List<u32>,
        draining: &[u32],
        rows: Rows,
        before: List<(u32, u32)>,
    ) -> Result<Instance, InstanceError>
        requires { version ≡ One → draining.now ≡ [] }
        ensures ok { IfOk result (λ i. IsShaped limits draining.now (rows_of rows) before × IsProblemOf i version limits draining.now (rows_of rows) before) }
        ensures shape { result ≡ Err InstanceError.Shape → ¬ IsShaped limits draining.now (rows_of rows) before }
    {
        if !has_reach(limits.as_slice(), &rows) {
            return Err(InstanceError::Shape);
        }
        if !is_row(limits.len(), draining) {
            return Err(InstanceError::Shape);
        }
        let draining = marks(alloc, limits.len(), draining)?;
        let before = places(alloc, rows.list_of.len(), limits.len(), before.as_slice())?;
        Ok(Instance {
            version,
            limits,
            draining: List::from_vec(draining),
            rows,
            before: List::from_vec(before),
        })
    }

    /// The version.
    pub fn version(&self) -> Version
        ensures { result ≡ self.now.version }
    {
        self.version
    }

    /// How many items there are, at most 16,384.
    pub fn items(&self) -> usize
        ensures count { result ≡ items_of self.now }
        ensures most { result ≤ MOST_ITEMS }
    {
        self.rows.list_of.len()
    }

    /// How many bins there are, at most 16,384.
    pub fn bins(&self) -> usize
        ensures count { result ≡ bins_of self.now }
        ensures most { result ≤ MOST_BINS }
    {
        self.limits.len()
    }

    /// The limit of a bin as it was given, where 0 is no limit; 0 past the last bin.
    pub fn limit(&self, bin: usize) -> u32
        ensures { result ≡ slice_index self.now.limits bin }
    {
        match self.limits.as_slice().get(bin) {
            Some(limit) => *limit,
            None => 0,
        }
    }

    /// How many items a bin may have: the lesser of its limit and the number of items, and all where the limit is 0.
    #[tactic(auto, unfolding(crate::specs::Problem::capacity_by))]
    pub fn capacity(&self, bin: usize) -> usize
        ensures value { result ≡ capacity_of self.now bin }
        ensures most { result ≤ MOST_ITEMS }
    {
        let limit = self.limit(bin) as usize;
        let items = self.items();
        if limit == 0 { items } else { limit.min(items) }
    }

    /// Whether a bin drains; false past the last bin.
    pub fn drains(&self, bin: usize) -> bool
        ensures { result ≡ drains self.now bin }
    {
        match self.draining.as_slice().get(bin) {
            Some(draining) => *draining,
            None => false,
        }
    }

    /// The bins that an item may use, in ascending order; none past the last item.
    #[tactic(auto, unfolding(crate::specs::Problem::row_of))]
    pub fn row(&self, item: usize) -> &[u32]
        ensures { result.now ≡ row_of self.now item }
    {
        row(&self.rows, item)
    }

    /// The rows of all items.
    pub(crate) fn rows(&self) -> &Rows
        ensures { rows_of result.now ≡ self.now.rows }
    {
        &self.rows
    }

    /// The bin where an item was; none past the last item.
    pub fn before(&self, item: usize) -> Option<u32>
        ensures { result ≡ before_of self.now item }
    {
        match self.before.as_slice().get(item) {
            Some(bin) => *bin,
            None => None,
        }
    }

    /// How many pairs the preceding assignment has.
    pub fn before_count(&self) -> usize
        ensures { result ≡ before_count self.now }
    {
        count_some(self.before.as_slice())
    }

    /// What covering an item is worth.
    pub(crate) fn cover_worth(&self) -> u32
        ensures worth { result ≡ cover_worth self.now.version (items_of self.now) }
        ensures most { result ≤ 268468225 }
    {
        self.version.cover_worth(self.items())
    }

    /// What a place at a bin that does not drain is worth besides.
    pub(crate) fn steady_worth(&self) -> u32
        ensures worth { result ≡ steady_worth self.now.version (items_of self.now) }
        ensures most { result ≤ 16385 }
    {
        self.version.steady_worth(self.items())
    }

    /// What the pair of an item and a bin is worth.
    #[tactic(auto, unfolding(crate::specs::Problem::weight_by))]
    pub fn weight(&self, item: usize, bin: usize) -> u32
        ensures { result ≡ weight_of self.now item bin }
    {
        self.bin_worth(bin) + self.kept_worth(item, bin)
    }

    /// What the pair of a bin and an item that was elsewhere is worth.
    #[tactic(auto, unfolding(crate::specs::Problem::weight_by))]
    pub(crate) fn bin_worth(&self, bin: usize) -> u32
        ensures worth { result ≡ bin_worth self.now bin }
        ensures most { result ≤ 268484610 }
    {
        match self.version {
            Version::One => self.cover_worth(),
            Version::Two if self.drains(bin) => self.cover_worth(),
            Version::Two => self.cover_worth() + self.steady_worth(),
        }
    }

    /// What keeping an item where it was is worth, where that is this bin.
    fn kept_worth(&self, item: usize, bin: usize) -> u32
        ensures { result ≡ (if was_in self.now item bin then 1 else 0) }
    {
        match self.before(item) {
            Some(home) if home as usize == bin => 1,
            _ => 0,
        }
    }

    /// Whether the pair of an item and a bin is worth more than a value. Whether the bin drains is looked for only where that
    /// can matter.
    pub(crate) fn is_worth_more(&self, item: usize, bin: usize, value: u64) -> bool
        ensures { IsTrue result ↔ (value < weight_of self.now item bin) }
    {
        value < u64::from(self.weight_at_most(item, bin))
            && value < u64::from(self.weight(item, bin))
    }

    /// What the pair of an item and a bin is worth unless the bin drains.
    #[tactic(auto, unfolding(crate::specs::Problem::weight_by))]
    fn weight_at_most(&self, item: usize, bin: usize) -> u32
        ensures { weight_of self.now item bin ≤ result }
    {
        self.cover_worth() + self.steady_worth() + self.kept_worth(item, bin)
    }

    /// The greatest weight that a pair can have.
    #[tactic(auto, unfolding(crate::specs::Problem::top_weight))]
    pub fn top_weight(&self) -> u32
        ensures { result ≡ top_weight self.now }
    {
        self.cover_worth() + self.steady_worth() + 1
    }

    /// What every instance keeps.
    pub fn is_problem(&self)
        ensures { IsProblem self.now }
    {
        let _ = &self.limits;
    }
}

impl Plain for Instance {
    fn copy(&self) -> Result<Instance, AllocError> {
        let limits = self.limits.copy()?;
        let draining = self.draining.copy()?;
        let rows = self.rows.copy()?;
        let before = self.before.copy()?;
        Ok(Instance {
            version: self.version,
            limits,
            draining,
            rows,
            before,
        })
    }

    fn same(&self, other: &Instance) -> bool {
        self.version == other.version
            && self.limits.same(&other.limits)
            && self.draining.same(&other.draining)
            && same_rows(&self.rows, &other.rows)
            && self.before.same(&other.before)
    }
}

/// How many bins there are.
fn count_some(bins: &[Option<u32>]) -> usize
    ensures { result ≡ count_by is_some bins.now }
{
    bins.iter().filter(|bin| bin.is_some()).count()
}
