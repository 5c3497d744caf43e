//! What an agent keeps of its reports, and writes down before it posts one.
ghost use Rattle.std.specs.Prelude.{◌≡◌, [], nat_eq, IfOk, OnOk, OnErr};
ghost use Rattle.indexmap.specs.IndexMap.{insert_entry};
ghost use Rattle.indexmap.specs.IndexSet.{insert_key};
ghost use Rattle.agent_core.specs.Targets.{same_series};
ghost use Rattle.agent_core.specs.Told.{carried, greatest, is_later, is_open, mark_in, mark_of, marks_for, nothing_told, shared_mark, with_marks, with_report};

use crate::report::Report;
use crate::target::{Listed, Series};
use indexmap::{IndexMap, IndexSet};
use lists::{Plain, Text};
use std::alloc::{AllocError, Global};
use std::marker::Model;

/// What an agent keeps of its reports. Contracts see what was told.
#[derive(Drop)]
pub struct Memory {
    alloc: Global,
    epoch: u64,
    round: u32,
    targets: IndexSet<u32>,
    marks: IndexMap<Series, u64>,
    floor: u64,
}

impl Model for Memory {
    ghost use Rattle.agent_core.specs.Told.{Told};

    ghost Value = { Told };

    ghost view = { λ m. record { epoch = m.epoch; round = m.round; targets = m.targets.keys; marks = m.marks.entries; floor = m.floor } };
}

impl Memory {
    /// Nothing was told. It takes no memory.
    pub fn open(alloc: Global) -> Memory
        ensures { result ≡ nothing_told }
    {
        Memory {
            alloc,
            epoch: 0,
            round: 0,
            targets: IndexSet::new(alloc),
            marks: IndexMap::new(alloc),
            floor: 0,
        }
    }

    /// What was written down. It takes no memory.
    pub fn restored(
        alloc: Global,
        epoch: u64,
        round: u32,
        targets: IndexSet<u32>,
        marks: IndexMap<Series, u64>,
        floor: u64,
    ) -> Memory
        ensures { result ≡ record { epoch = epoch; round = round; targets = targets.keys; marks = marks.entries; floor = floor } }
    {
        Memory {
            alloc,
            epoch,
            round,
            targets,
            marks,
            floor,
        }
    }

    /// The epoch of the last report, 0 where there is none.
    pub fn epoch(&self) -> u64
        ensures { result ≡ self.now.epoch }
    {
        self.epoch
    }

    /// The round of the last report, 0 where there is none.
    pub fn round(&self) -> u32
        ensures { result ≡ self.now.round }
    {
        self.round
    }

    /// The targets of which was told in that round.
    pub fn targets(&self) -> &[u32]
        ensures { result.now ≡ self.now.targets }
    {
        self.targets.as_slice()
    }

    /// Of each series of the last list the time up to which no scrape is reported any more.
    pub fn marks(&self) -> &IndexMap<Series, u64>
        ensures { result.now.entries ≡ self.now.marks }
    {
        &self.marks
    }

    /// Nothing up to this time is reported of a series without a mark.
    pub fn floor(&self) -> u64
        ensures { result ≡ self.now.floor }
    {
        self.floor
    }

    /// The time up to which no scrape of a series is reported any more.
    pub fn mark(&self, series: &Series) -> u64
        ensures { result ≡ mark_of self.now series.now }
    {
        self.mark_or(series, self.floor)
    }

    /// Whether a target may be told of in a round: nothing of a later one was told, and in this one nothing of the target.
    pub fn is_open(&self, epoch: u64, round: u32, target: u32) -> bool
        ensures { result ≡ is_open self.now epoch round target }
    {
        self.is_later(epoch, round)
            || self.epoch == epoch && self.round == round && !self.targets.contains(&target)
    }

    fn is_later(&self, epoch: u64, round: u32) -> bool
        ensures { result ≡ is_later self.now epoch round }
    {
        self.epoch < epoch || self.epoch == epoch && self.round < round
    }

    /// A report is chosen. Without memory nothing changes.
    pub(crate) fn note(&mut self, report: &Report) -> Result<(), AllocError>
        ensures ok { OnOk result (self.new ≡ with_report self.old report.now) }
        ensures err { OnErr result (self.new ≡ self.old) }
    {
        let (epoch, round) = (report.head.epoch, report.head.round);
        if self.is_later(epoch, round) {
            self.note_first(report)?;
        } else {
            self.note_more(report)?;
        }
        self.epoch = epoch;
        self.round = round;
        Ok(())
    }
}

impl Memory {
    /// The report is the first one of its round.
    fn note_first(&mut self, report: &Report) -> Result<(), AllocError>
        ensures ok { OnOk result (self.new ≡ record self.old { targets = insert_key nat_eq [] report.now.target; marks = insert_entry same_series self.old.marks report.now.series report.now.time }) }
        ensures err { OnErr result (self.new ≡ self.old) }
    {
        let mut targets = IndexSet::new(self.alloc);
        targets.insert(report.target)?;
        set_mark(&mut self.marks, &report.series, report.time)?;
        self.targets = targets;
        Ok(())
    }

    /// The report is a further one of its round.
    fn note_more(&mut self, report: &Report) -> Result<(), AllocError>
        ensures ok { OnOk result (self.new ≡ record self.old { targets = insert_key nat_eq self.old.targets report.now.target; marks = insert_entry same_series self.old.marks report.now.series report.now.time }) }
        ensures err { OnErr result (self.new ≡ self.old) }
    {
        self.targets.reserve(1)?;
        set_mark(&mut self.marks, &report.series, report.time)?;
        if self.targets.insert(report.target).is_err() {
            unreachable!();
        }
        Ok(())
    }

    /// A list is taken at a time. Without memory nothing changes.
    pub(crate) fn carry(&mut self, at: u64, targets: &[Listed]) -> Result<(), AllocError>
        ensures ok { OnOk result (self.new ≡ carried self.old at targets.now) }
        ensures err { OnErr result (self.new ≡ self.old) }
    {
        let floor = at.max(greatest(self.marks.values().as_slice(), self.floor));
        let marks = self.marks_for(floor, targets)?;
        self.marks = marks;
        self.floor = floor;
        Ok(())
    }

    /// The marks of a list's series, where a series without one has this one.
    fn marks_for(&self, floor: u64, targets: &[Listed]) -> Result<IndexMap<Series, u64>, AllocError>
        ensures { IfOk result (λ m. m.entries ≡ marks_for (record self.now { floor = floor }) targets.now []) }
    {
        let mut marks = IndexMap::new(self.alloc);
        for listed in targets {
            self.add_marks(&mut marks, floor, listed)?;
        }
        Ok(marks)
    }

    /// Adds the mark of a target's series, and that it is shared.
    fn add_marks(
        &self,
        marks: &mut IndexMap<Series, u64>,
        floor: u64,
        listed: &Listed,
    ) -> Result<(), AllocError>
        ensures { OnOk result (marks.new.entries ≡ with_marks (record self.now { floor = floor }) marks.old.entries listed.now) }
    {
        let key = shared_mark(self.alloc, &listed.series)?;
        set_mark(marks, &listed.series, self.mark_in(floor, &key, listed))?;
        if listed.shared {
            set_mark(marks, &key, floor)?;
        }
        Ok(())
    }

    /// The mark of a target's series in a list. One that was shared, and is the target's alone now, has this one.
    fn mark_in(&self, floor: u64, key: &Series, listed: &Listed) -> u64
        ensures { result ≡ mark_in (record self.now { floor = floor }) key.now listed.now }
    {
        if self.marks.contains_key(key) && !listed.shared {
            floor
        } else {
            self.mark_or(&listed.series, floor)
        }
    }

    /// The mark of a series, or another one where it has none.
    fn mark_or(&self, series: &Series, floor: u64) -> u64
        ensures { result ≡ mark_of (record self.now { floor = floor }) series.now }
    {
        match self.marks.get(series) {
            Some(mark) => *mark,
            None => floor,
        }
    }
}

/// Under this is noted that targets share a series.
fn shared_mark(alloc: Global, series: &Series) -> Result<Series, AllocError>
    ensures { IfOk result (λ s. s ≡ shared_mark series.now) }
{
    let mut labels = String::from_str(alloc, "shared ")?;
    labels.push_str(series.labels.as_str())?;
    Ok(Series {
        labels: Text::from_string(labels),
    })
}

/// A series has this mark. Without memory nothing changes.
fn set_mark(marks: &mut IndexMap<Series, u64>, series: &Series, time: u64) -> Result<(), AllocError>
    ensures ok { OnOk result (marks.new.entries ≡ insert_entry same_series marks.old.entries series.now time) }
    ensures err { OnErr result (marks.new.entries ≡ marks.old.entries) }
{
    let series = series.copy()?;
    marks.insert(series, time)?;
    Ok(())
}

/// The greatest of these marks and of another time.
fn greatest(marks: &[u64], time: u64) -> u64
    ensures { result ≡ greatest marks.now time }
{
    let mut most = time;
    for mark in marks {
        most = most.max(*mark);
    }
    most
}
