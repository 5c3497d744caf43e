//! Which bins are evened out together.
use crate::numbers::{NONE, number_at, put, repeated};
use price_certificate::Instance;
use std::alloc::{AllocError, Global};

/// How the items of a job are evened out.
#[derive(Clone, Copy, PartialEq, Eq)]
pub enum JobEvening {
    /// With those of the other jobs of which this is said.
    Together,
    /// By themselves: a collector may have so many percent more of them than where they are the most even.
    Alone(u32),
    /// Not at all. They do not count.
    Off,
}

/// The jobs whose items are evened out together.
#[derive(Clone, Copy)]
struct Class {
    /// Among so many jobs in a row, from this one on.
    first: u32,
    many: u32,
    /// By how many percent a collector may have more of their items.
    slack: u32,
}

/// Groups of bins. A group is a collector's bins of the jobs of one class.
#[derive(Drop)]
pub(crate) struct Groups {
    /// How many bins in a row a collector has, a bin for each job.
    jobs: u32,
    collectors: u32,
    classes: Vec<Class>,
    /// Whether all jobs are evened out together.
    together: bool,
    /// The group of each bin, `NONE` where its items do not count.
    pub(crate) owners: Vec<u32>,
}

/// How the jobs are evened out: those past the last that is told of together with others.
fn told_jobs(jobs: u32, by_job: &[JobEvening]) -> &[JobEvening] {
    if (jobs as usize) < by_job.len() {
        &by_job[..jobs as usize]
    } else {
        by_job
    }
}

/// The jobs that are evened out together, and each that is by itself.
fn classes_of(
    alloc: Global,
    jobs: u32,
    slack: u32,
    by_job: &[JobEvening],
) -> Result<Vec<Class>, AllocError> {
    let mut classes = Vec::new(alloc);
    classes.push(Class {
        first: 0,
        many: jobs,
        slack,
    })?;
    let mut job = 0u32;
    for evening in by_job {
        if let JobEvening::Alone(slack) = *evening {
            classes.push(Class {
                first: job,
                many: 1,
                slack,
            })?;
        }
        job = job.saturating_add(1);
    }
    Ok(classes)
}

/// The class of each job that is told of, `NONE` where its items do not count.
fn class_numbers(alloc: Global, by_job: &[JobEvening]) -> Result<Vec<u32>, AllocError> {
    let mut numbers = Vec::with_capacity(alloc, by_job.len())?;
    let mut alone = 0u32;
    for evening in by_job {
        let number = match *evening {
            JobEvening::Together => 0,
            JobEvening::Alone(_) => {
                alone = alone.saturating_add(1);
                alone
            }
            JobEvening::Off => NONE,
        };
        numbers.push(number)?;
    }
    Ok(numbers)
}

/// The group of a bin, by the classes of the jobs that are told of.
fn group_of(jobs: u32, collectors: u32, numbers: &[u32], bin: u32) -> u32 {
    if jobs == 0 {
        return NONE;
    }
    let job = bin % jobs;
    let class = if (job as usize) < numbers.len() {
        number_at(numbers, job)
    } else {
        0
    };
    if class == NONE {
        return NONE;
    }
    class.saturating_mul(collectors).saturating_add(bin / jobs)
}

/// The group of each bin, `NONE` where the bin drains or its items do not count.
fn owners_of(
    alloc: Global,
    instance: &Instance,
    jobs: u32,
    collectors: u32,
    numbers: &[u32],
) -> Result<Vec<u32>, AllocError> {
    let mut owners = repeated(alloc, NONE, instance.bins())?;
    for bin in 0..instance.bins() {
        if !instance.drains(bin) {
            let bin = bin as u32;
            put(&mut owners, bin, group_of(jobs, collectors, numbers, bin));
        }
    }
    Ok(owners)
}

/// How many collectors there are, where each but the last has so many bins.
fn collectors_of(instance: &Instance, jobs: u32) -> u32 {
    u32::try_from(instance.bins().div_ceil((jobs as usize).max(1))).unwrap_or(NONE)
}

impl Groups {
    /// The groups of an instance where a collector has so many bins in a row. A job is evened out as it is told by its place, and a job of
    /// which nothing is told together with others.
    pub(crate) fn new(
        alloc: Global,
        instance: &Instance,
        jobs: u32,
        slack: u32,
        by_job: &[JobEvening],
    ) -> Result<Groups, AllocError> {
        let by_job = told_jobs(jobs, by_job);
        let collectors = collectors_of(instance, jobs);
        let numbers = class_numbers(alloc, by_job)?;
        let owners = owners_of(alloc, instance, jobs, collectors, numbers.as_slice())?;
        let together = numbers.iter().all(|number| *number == 0);
        let classes = classes_of(alloc, jobs, slack, by_job)?;
        Ok(Groups {
            jobs,
            collectors,
            classes,
            together,
            owners,
        })
    }

    /// No groups: no bin counts.
    pub(crate) fn none(alloc: Global) -> Groups {
        Groups {
            jobs: 0,
            collectors: 0,
            classes: Vec::new(alloc),
            together: false,
            owners: Vec::new(alloc),
        }
    }

    /// Whether each collector is one group: all jobs are evened out together.
    pub(crate) fn are_collectors(&self) -> bool {
        self.together
    }

    /// How many groups there are.
    pub(crate) fn count(&self) -> usize {
        (self.collectors as usize).saturating_mul(self.classes.len())
    }

    /// The class of a group, and the first bin of its collector.
    fn class(&self, group: u32) -> Option<(Class, u32)> {
        let class = group.checked_div(self.collectors)?;
        let class = self.classes.get(class as usize)?;
        let collector = group.checked_rem(self.collectors)?;
        Some((*class, collector.saturating_mul(self.jobs)))
    }

    /// The first bin that may be one of a group, and the one after the last.
    pub(crate) fn row(&self, group: u32) -> (u32, u32) {
        match self.class(group) {
            Some((class, row)) => {
                let first = row.saturating_add(class.first);
                (first, first.saturating_add(class.many))
            }
            None => (0, 0),
        }
    }

    /// By how many percent a group may have more items than where the loads are the most even.
    pub(crate) fn slack(&self, group: u32) -> u32 {
        match self.class(group) {
            Some((class, _)) => class.slack,
            None => 0,
        }
    }
}
